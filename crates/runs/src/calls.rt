//! Calls on a walk, answered in place.

ghost use Rattle.std.specs.Prelude.{◌≡◌, map};
ghost use Rattle.completion.specs.Standings.{members_of};
ghost use Rattle.model.specs.Obeys.{Obeys, ObeysAll};
ghost use Rattle.model.specs.Runs.{asked, told};

use model::{Answer, Call, Exchange};
use pairs::PairTable;
use walk::Walk;

// Makes one call and answers it. The calls are data in the caller's memory, so their kinds are told apart here.
fn make<T: PairTable>(walk: &mut Walk<T>, exchange: &mut Exchange)
    ensures table { walk.new.table ≡ walk.old.table }
    ensures obeys { let graph = T.PairTable.meaning walk.old.table in
        let pin = members_of walk.old.standing in
        Obeys graph pin (asked exchange.old) (told exchange.new) (members_of walk.new.standing) }
{
    exchange.answer = match exchange.call {
        Call::Step => Some(walk.step().map(Answer::Count)),
        Call::Read => Some(walk.read(&mut exchange.space).map(Answer::Count)),
        Call::Resume => Some(walk.resume(&exchange.space).map(|()| Answer::Resumed)),
    };
}

// Makes the calls in order.
pub(crate) fn make_all<T: PairTable>(walk: &mut Walk<T>, exchanges: &mut [Exchange])
    ensures table { walk.new.table ≡ walk.old.table }
    ensures obeys { let graph = T.PairTable.meaning walk.old.table in
        let pin = members_of walk.old.standing in
        ObeysAll graph pin (map asked exchanges.old) (map told exchanges.new) (members_of walk.new.standing) }
{
    for exchange in exchanges.iter_mut() {
        make(walk, exchange);
    }
}
