// Making receivables, looking into them, and paying.
ghost use Rattle.std.specs.Prelude.{◌≡◌, ◌<◌, ◌^◌, ◌==◌, IfOk, vec_capacity, filter, position};
ghost use Rattle.foundation.specs.Questions.{after};
ghost use Rattle.receivables.specs.Books.{book_of, new_book};
ghost use Rattle.receivables.specs.Invoices.{balances, owed_by, unsettled};
ghost use Rattle.receivables.specs.Payments.{pay_answer, after_pay};

use super::Receivables;
use crate::fault::Fault;
use crate::invoice::{Event, Invoice};
use std::alloc::{AllocError, Global};

// Takes the settled invoices out.
pub(crate) fn sweep(list: &mut Vec<Invoice>)
    ensures items { list.new.items ≡ filter unsettled list.old.items }
    ensures capacity { vec_capacity list.new ≡ vec_capacity list.old }
{
    list.retain(|invoice| !invoice.is_settled());
}

// Where the invoice with a number stands.
fn place_of(list: &[Invoice], number: u32) -> Option<usize>
    ensures { result ≡ position (λ v. v.number == number) list.now }
{
    list.iter().position(|invoice| invoice.number == number)
}

// What a Counter-Party owes on the invoices of a list.
fn owed_in(list: &[Invoice], counter_party: u16) -> u64
    requires { balances list.now < 2 ^ 64 }
    ensures { result ≡ owed_by list.now counter_party }
{
    list.iter().fold(0, |owed, invoice| {
        if invoice.billed == counter_party {
            owed + invoice.balance
        } else {
            owed
        }
    })
}

impl<const PLACES: usize> Receivables<PLACES> {
    // Without invoices, and with the memory for all that can be.
    pub fn new(heap: Global, account: u16) -> Result<Receivables<PLACES>, AllocError>
        ensures { IfOk result (λ b. book_of b ≡ new_book account) }
    {
        let list = Vec::with_capacity(heap, PLACES)?;
        Ok(Receivables {
            list,
            next: 1,
            account,
        })
    }

    // The unsettled invoices by rising number.
    pub fn invoices(&self) -> &[Invoice]
        ensures { result.now ≡ (book_of self.now).invoices }
    {
        self.list.as_slice()
    }

    // What a Counter-Party owes on its invoices.
    pub fn owed_by(&self, counter_party: u16) -> u64
        ensures { result ≡ owed_by (book_of self.now).invoices counter_party }
    {
        owed_in(self.list.as_slice(), counter_party)
    }

    // Pays on the invoice with a number, and answers the balance left.
    pub fn pay(&mut self, number: u32, account: u16, amount: u64) -> Result<u64, Fault>
        ensures answer { result ≡ pay_answer (book_of self.old) number account amount }
        ensures book { book_of self.new ≡ after result (after_pay (book_of self.old) number amount) (book_of self.old) }
    {
        let k = place_of(self.list.as_slice(), number).ok_or(Fault::Number)?;
        if account != self.account {
            return Err(Fault::Account);
        }
        let balance = self.list[k].balance;
        if amount < 1 || amount > balance {
            return Err(Fault::Amount);
        }
        self.list[k].tell(Event::Payment(amount));
        sweep(&mut self.list);
        Ok(balance - amount)
    }
}
