// One call made, and a list of them.
ghost use Rattle.std.specs.Prelude.{◌≡◌, ℕ, true, List, [], ◌∷◌, ◌++◌, map, is_err, IfOk};
ghost use Rattle.ledger.specs.Secure.{Security, row_of};
ghost use Rattle.history.specs.Requests.{Request, Reply};
ghost use Rattle.history.specs.Calls.{request_of, reply_of};
ghost use Rattle.history.specs.Steps.{Step};
ghost use Rattle.history.specs.Places.{state_of, PlacesKept};
ghost use Rattle.history.specs.Whole.{WholeHistory};

use crate::answer::Answer;
use crate::call::Call;
use calendar::Calendar;
use ledger::{Fault, Ledger};
use security::Instrument;
use std::alloc::{AllocError, Global};

impl<C: Calendar> Call<'_, C> {
    // A match: a call is data, which the law speaks of, and not a closure or a `dyn`.
    fn step<I: Instrument + Copy>(
        &self,
        ledger: &mut Ledger,
        row: &mut [I],
    ) -> Result<Answer, Fault>
        ensures step { Step (state_of I.held I.room ledger.old row.old) (request_of C.meaning self.now) (reply_of result) (state_of I.held I.room ledger.new row.new) }
        ensures places { PlacesKept (state_of I.held I.room ledger.old row.old) (request_of C.meaning self.now) (reply_of result) (state_of I.held I.room ledger.new row.new) }
    {
        match self {
            Call::Register { counter_party } => {
                ledger.register(*counter_party).map(|_| Answer::Done)
            }
            Call::Enrol {
                participant,
                counter_party,
            } => ledger
                .enrol(*participant, *counter_party)
                .map(|_| Answer::Done),
            Call::Bill {
                table,
                month,
                amount,
                stamp,
                calendar,
            } => ledger
                .bill(*table, *month, *amount, *stamp, *calendar)
                .map(Answer::Issued),
            Call::Pay {
                stamp,
                account,
                amount,
                remark,
            } => ledger
                .pay(*stamp, *account, *amount, remark)
                .map(Answer::Left),
            Call::Fund {
                counter_party,
                means,
                amount,
            } => ledger
                .fund(row, *counter_party, *means, *amount)
                .map(Answer::Holds),
            Call::PastDue { stamp } => ledger.past_due(*stamp, row).map(Answer::Drew),
            Call::Report { counter_party } => {
                ledger.report(row, *counter_party).map(Answer::Tells)
            }
        }
    }

    // Makes the call. Whatever calls led here, with this one they are a list of calls that the law holds of.
    pub fn make<I: Instrument + Copy>(
        &self,
        ledger: &mut Ledger,
        row: &mut [I],
    ) -> Result<Answer, Fault>
        ensures step { Step (state_of I.held I.room ledger.old row.old) (request_of C.meaning self.now) (reply_of result) (state_of I.held I.room ledger.new row.new) }
        ensures places { PlacesKept (state_of I.held I.room ledger.old row.old) (request_of C.meaning self.now) (reply_of result) (state_of I.held I.room ledger.new row.new) }
        ensures history { (account : ℕ) (requests : List Request) (replies : List Reply) (start : List Security) → WholeHistory account requests replies start (state_of I.held I.room ledger.old row.old) → WholeHistory account (requests ++ request_of C.meaning self.now ∷ []) (replies ++ reply_of result ∷ []) start (state_of I.held I.room ledger.new row.new) }
    {
        self.step(ledger, row)
    }
}

// The ledger that a list of calls leaves, and what each of them was answered.
#[derive(Drop)]
pub struct Carried {
    pub ledger: Ledger,
    pub replies: Vec<Result<Answer, Fault>>,
}

// Carries the calls out in their order, over a new ledger and the row. Where memory is wanting, nothing is done.
pub fn carry_out<I: Instrument + Copy, C: Calendar>(
    heap: Global,
    account: u16,
    row: &mut [I],
    calls: &[Call<'_, C>],
) -> Result<Carried, AllocError>
    ensures history { IfOk result (λ c. WholeHistory account (map (request_of C.meaning) calls.now) (map reply_of c.replies.items) (row_of I.held I.room row.old) (state_of I.held I.room c.ledger row.new)) }
    ensures refused { is_err result ≡ true → row.new ≡ row.old }
{
    let mut ledger = Ledger::new(heap, account)?;
    let mut replies = Vec::with_capacity(heap, calls.len())?;
    for call in calls {
        replies.push_reserved(call.make(&mut ledger, row));
    }
    Ok(Carried { ledger, replies })
}
