// Making a ledger, registering, enrolling, posting and paying.
ghost use Rattle.std.specs.Prelude.{◌≡◌, IfOk};
ghost use Rattle.foundation.specs.Questions.{after, means};
ghost use Rattle.calendar.specs.Moments.{when};
ghost use Rattle.activity.specs.Months.{collecting_month};
ghost use Rattle.activity.specs.Tables.{meaning, post_answer, posted};
ghost use Rattle.ledger.specs.Enrolment.{register_answer, registered, enrol_answer, enrolled};
ghost use Rattle.ledger.specs.Registries.{place_of};
ghost use Rattle.ledger.specs.declared.fault.Fault.TheVariants.{Registry as RegistryFault, Record as RecordFault};
ghost use Rattle.ledger.specs.Model.{model_of, new_model, with_register};
ghost use Rattle.ledger.specs.Pay.{moment_answer, pay_answer, paid};
ghost use Rattle.ledger.specs.Raised.{raised};

use super::Ledger;
use crate::charges::Charges;
use crate::fault::Fault;
use crate::registry::Registry;
use activity::{Collecting, Table};
use calendar::{Moment, Stamp};
use receivables::Receivables;
use records::{Record, Ruling};
use remarks::{Digits, invoice_number};
use std::alloc::{AllocError, Global};

impl Ledger {
    // Without anybody, and with the memory for all that can come.
    pub fn new(heap: Global, account: u16) -> Result<Ledger, AllocError>
        ensures { IfOk result (λ l. model_of l ≡ new_model account) }
    {
        let registry = Registry::new(heap)?;
        let receivables = Receivables::new(heap, account)?;
        Ok(Ledger {
            registry,
            receivables,
            charges: Charges::none(),
            moment: None,
            month: None,
        })
    }

    pub fn register(&mut self, counter_party: u16) -> Result<(), Fault>
        ensures answer { result ≡ raised RegistryFault (register_answer (model_of self.old).register counter_party) }
        ensures model { model_of self.new ≡ after result (with_register (model_of self.old) (registered (model_of self.old).register counter_party)) (model_of self.old) }
    {
        self.registry.register(counter_party)?;
        Ok(())
    }

    pub fn enrol(&mut self, participant: u16, counter_party: u16) -> Result<(), Fault>
        ensures answer { result ≡ raised RegistryFault (enrol_answer (model_of self.old).register participant counter_party) }
        ensures model { model_of self.new ≡ after result (with_register (model_of self.old) (enrolled (model_of self.old).register participant counter_party)) (model_of self.old) }
    {
        self.registry.enrol(participant, counter_party)?;
        Ok(())
    }

    // Posts a record to a collecting month's table.
    pub fn post(
        &self,
        table: &mut Table,
        month: &Collecting,
        participant: u16,
        record: Record,
    ) -> Result<Ruling, Fault>
        ensures answer { result ≡ raised RecordFault (post_answer (meaning table.old) (collecting_month month.now) (place_of (model_of self.now).register.participants participant) «record».determinant «record».mark «record».quantity) }
        ensures table { meaning table.new ≡ after result (posted (meaning table.old) (place_of (model_of self.now).register.participants participant) «record».determinant «record».mark «record».quantity) (meaning table.old) }
    {
        Ok(table.post(month, self.registry.participant(participant), record)?)
    }

    // A call's moment, if it is one and not before the last accepted one.
    pub(crate) fn moment(&self, stamp: Stamp) -> Result<Moment, Fault>
        ensures { means when result ≡ moment_answer (model_of self.now) stamp.day stamp.minute }
    {
        let at = Moment::new(stamp.day, stamp.minute).ok_or(Fault::NoMoment)?;
        if self.moment.is_some_and(|last| at.is_before(last)) {
            return Err(Fault::Before);
        }
        Ok(at)
    }

    // Pays on the invoice that the remark names, and answers the balance left.
    pub fn pay(
        &mut self,
        stamp: Stamp,
        account: u16,
        amount: u64,
        remark: &[u8],
    ) -> Result<u64, Fault>
        ensures answer { result ≡ pay_answer (model_of self.old) stamp.day stamp.minute account amount remark.now }
        ensures model { model_of self.new ≡ after result (paid (model_of self.old) stamp.day stamp.minute amount remark.now) (model_of self.old) }
    {
        let at = self.moment(stamp)?;
        let number = invoice_number(remark, Digits::five()).ok_or(Fault::Remark)?;
        let left = self.receivables.pay(number, account, amount)?;
        self.moment = Some(at);
        Ok(left)
    }
}
