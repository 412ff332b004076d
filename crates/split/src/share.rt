// Each place's charge: the whole part of its exact share, and one of the leftover cents if it is among them.
ghost use Rattle.std.specs.Prelude.{◌≡◌, ◌*◌, ◌/◌, ◌%◌, ◌<◌, ◌≤◌, length, sum, OnOk, slice_index};
ghost use Rattle.foundation.specs.Questions.{after};
ghost use Rattle.split.specs.Amounts.{cents_of};
ghost use Rattle.split.specs.Laws.{FairSplit};
ghost use Rattle.split.specs.Split.{comes_first, leftover, ahead, charges, laid_out, split_answer};

use crate::amount::Amount;
use crate::fault::Fault;
use foundation::MOST_ACTIVITY;
use std::cmp::Reverse;

// An amount in cents, the activities that it is shared by, and their sum.
#[derive(Clone, Copy)]
struct Sharing<'a> {
    amount: u64,
    activities: &'a [u64],
    all: u64,
    ghost some: { 0 < amount },
    ghost fits: { amount ≤ 1000000000 },
    ghost active: { 0 < all },
    ghost few: { all ≤ 8000000000 },
    ghost summed: { all ≡ sum activities.now },
}

// The sum of all activities, if an amount can be shared by it.
fn total_of(activities: &[u64]) -> Result<u64, Fault>
    ensures { result ≡ split_answer activities.now }
{
    let mut all = 0;
    for a in activities {
        if *a > MOST_ACTIVITY - all {
            return Err(Fault::TooMuchActivity);
        }
        all += *a;
    }
    if all == 0 {
        return Err(Fault::NoActivity);
    }
    Ok(all)
}

// Whether place j with the remainder theirs comes before place i with the remainder mine: larger remainders first.
fn comes_first(theirs: u64, j: usize, mine: u64, i: usize) -> bool
    ensures { result ≡ comes_first theirs j mine i }
{
    (Reverse(theirs), j) < (Reverse(mine), i)
}

impl Sharing<'_> {
    // The whole part and the remainder of an exact share.
    fn exact_share(&self, activity: u64) -> (u64, u64)
        requires { activity ≤ 8000000000 }
        ensures whole { result.0 ≡ self.now.amount * activity / self.now.all }
        ensures rest { result.1 ≡ self.now.amount * activity % self.now.all }
    {
        let product = self.amount * activity;
        (product / self.all, product % self.all)
    }

    // The cents that the whole parts leave.
    fn leftover(&self) -> u64
        ensures { result ≡ leftover self.now.amount self.now.activities.now }
    {
        let mut left = self.amount;
        for a in self.activities {
            let (whole, _) = self.exact_share(*a);
            left -= whole;
        }
        left
    }

    // How many places come before place i.
    fn ahead_of(&self, i: usize) -> u64
        requires { i < length self.now.activities.now }
        ensures { result ≡ ahead self.now.amount self.now.activities.now i }
    {
        let (_, mine) = self.exact_share(self.activities[i]);
        let mut before: u64 = 0;
        // A loop over the slice with its index: a rule of the project (docs/DECISIONS.md).
        for (j, a) in self.activities.iter().enumerate() {
            let (_, theirs) = self.exact_share(*a);
            if comes_first(theirs, j, mine, i) {
                before += 1;
            }
        }
        before
    }

    // The charge of place i, 0 past the last, where so many cents are left over.
    fn charge_at(&self, left: u64, i: usize) -> u64
        requires { left ≡ leftover self.now.amount self.now.activities.now }
        ensures { result ≡ slice_index (charges self.now.amount self.now.activities.now) i }
    {
        if i >= self.activities.len() {
            return 0;
        }
        let (whole, _) = self.exact_share(self.activities[i]);
        if self.ahead_of(i) < left {
            whole + 1
        } else {
            whole
        }
    }
}

// Writes the charge of each place, 0 past the last, and answers the sum of the activities.
pub fn split(amount: Amount, activities: &[u64], out: &mut [u64]) -> Result<u64, Fault>
    ensures answer { result ≡ split_answer activities.now }
    ensures charged { out.new ≡ after result (laid_out (charges (cents_of amount) activities.now) (length out.old)) out.old }
    ensures fair { OnOk result (FairSplit (cents_of amount) activities.now (charges (cents_of amount) activities.now)) }
{
    let all = total_of(activities)?;
    let amount = amount.cents();
    let sharing = Sharing {
        amount,
        activities,
        all,
    };
    let left = sharing.leftover();
    for (i, charge) in out.iter_mut().enumerate() {
        *charge = sharing.charge_at(left, i);
    }
    Ok(all)
}
