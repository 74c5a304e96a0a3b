// The bank by value, and what a party does with it: load, run, drop. Only these calls make a bank, since no other crate sees its fields.
// Tags and schedules are two arrays, and Handed has a reply beside its number, because C gets them so by value.
ghost use Rattle.std.specs.Prelude.{◌≡◌, [], ◌∷◌, ◌<◌, IfOk};
ghost use Rattle.aes.specs.Reply.{refusal, is_full_schedule};
ghost use Rattle.aes.specs.Refusal.{reply, value};
ghost use Rattle.bank.specs.Places.{loaded_at, name_checks};
ghost use Rattle.bank.specs.Calls.{empty_bank, load_of, drop_of, run_of, cleared};

use crate::tags::{Party, place_of};
use aes::reply::{Refusal, reply};
use masked::encrypt_one;

// What a place holds.
#[repr(C)]
#[derive(Clone, Copy)]
pub struct Schedule {
    bytes: [u8; 240],
}

impl Schedule {
    // What a free place holds.
    fn cleared() -> Schedule
        ensures { result ≡ cleared }
    {
        Schedule { bytes: [0; 240] }
    }
}

#[repr(C)]
#[derive(Clone, Copy)]
pub struct Bank {
    tags: [u8; 16],
    schedules: [Schedule; 16],
}

// What a load or a drop hands back.
#[repr(C)]
#[derive(Clone, Copy)]
pub struct Handed {
    pub bank: Bank,
    pub reply: u8,
    pub number: u8,
}

impl Bank {
    pub fn empty() -> Bank
        ensures { result ≡ empty_bank }
    {
        Bank {
            tags: [0; 16],
            schedules: [Schedule::cleared(); 16],
        }
    }

    pub fn load(mut self, party: u8, schedule: &[u8]) -> Handed
        ensures { (result.reply, (result.number, result.bank)) ≡ load_of self party schedule.now }
    {
        let (reply, number) = match self.place(party, schedule) {
            Ok(number) => (0, number),
            Err(refusal) => (refusal as u8, 0),
        };
        Handed {
            bank: self,
            reply,
            number,
        }
    }

    pub fn drop(mut self, party: u8, number: u8) -> Handed
        ensures { (result.reply, (result.number, result.bank)) ≡ drop_of self party number }
    {
        let outcome = self.free(party, number);
        Handed {
            bank: self,
            reply: reply(outcome),
            number: 0,
        }
    }

    pub fn run(
        self,
        party: u8,
        number: u8,
        input: &[u8],
        output: &mut [u8],
        offset: u8,
    ) -> Result<(), Refusal>
        ensures { (reply result, output.new) ≡ run_of self party number input.now output.old offset }
    {
        let at = self.find(party, number)?;
        encrypt_one(&self.schedules[at].bytes, input, output, offset)
    }

    // The schedule goes into the first free place, under the number that is answered. It is copied once, where nothing is refused.
    fn place(&mut self, party: u8, schedule: &[u8]) -> Result<u8, Refusal>
        ensures { (reply result, (value result, self.new)) ≡ load_of self.old party schedule.now }
    {
        let party = Party::of(party)?;
        if schedule.len() != 240 {
            return Err(Refusal::ScheduleLength);
        }
        if 11 < party.held(&self.tags) {
            return Err(Refusal::PartyFull);
        }
        let Some(at) = place_of(&self.tags, 0) else {
            return Err(Refusal::BankFull);
        };
        let number = party.lowest(&self.tags);
        self.tags[at] = party.tag(number);
        self.schedules[at].bytes.copy_from_slice(schedule);
        Ok(number)
    }

    fn free(&mut self, party: u8, number: u8) -> Result<(), Refusal>
        ensures { (reply result, (0, self.new)) ≡ drop_of self.old party number }
    {
        let at = self.find(party, number)?;
        self.tags[at] = 0;
        self.schedules[at] = Schedule::cleared();
        Ok(())
    }

    // Where the schedule of that number stands.
    fn find(&self, party: u8, number: u8) -> Result<usize, Refusal>
        ensures told { reply result ≡ refusal (name_checks self.now.tags party number) }
        ensures found { IfOk result (λ k. (k < 16) × (k ≡ loaded_at party number self.now.tags)) }
    {
        Party::of(party)?
            .loaded_at(&self.tags, number)
            .ok_or(Refusal::NotLoaded)
    }
}
