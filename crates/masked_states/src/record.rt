// The calls that record a masked run.
ghost use Rattle.std.specs.Prelude.{◌≤◌};

use covers::answer::{Answer, answer};
use covers::labels::Labels;
use covers::state::over_state;
use covers::trial::Trial;
use lines::c3::state_at;
use lines::counts::Tally;
use lines::vector::Way;
use masked::{record_masked, record_masked_decryption};

// How many bytes the record has.
pub fn length(way: Way) -> usize
    ensures { result ≤ 1360 }
{
    match way {
        Way::Encrypt => 1136,
        Way::Decrypt => 1360,
    }
}

// What comes of all calls, each for the recorded state of this number.
pub fn run(way: Way, place: usize, trial: &Trial) -> Tally {
    trial.run(|trial, block, labels| recorded(way, place, trial, block, labels))
}

// What is handed on as written is the state without the mask that should lie over it.
fn recorded(way: Way, place: usize, trial: &Trial, block: &[u8; 16], labels: Labels) -> Answer {
    let schedule = trial.schedule.bytes();
    let masks = trial.masks;
    let offsets = labels.record();
    let step = labels.step;
    answer(|output| {
        let mut room = [0; 1360];
        let record = &mut room[..length(way)];
        match way {
            Way::Encrypt => record_masked(schedule, block, &masks, &offsets, step, record),
            Way::Decrypt => {
                record_masked_decryption(schedule, block, &masks, &offsets, step, record)
            }
        }?;
        let mask = over_state(way, masks, labels, place);
        *output = aes::add(state_at(record, place), mask);
        Ok(())
    })
}
