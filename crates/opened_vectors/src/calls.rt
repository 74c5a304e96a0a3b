// The calls that decrypt a block, with the published masks and with others.
use covers::answer::{Answer, answer};
use covers::labels::Labels;
use covers::trial::Trial;
use masked::{decrypt_masked, decrypt_published};

pub fn published(trial: &Trial, block: &[u8; 16], labels: Labels) -> Answer {
    let schedule = trial.schedule.bytes();
    answer(|output| decrypt_published(schedule, block, output, &labels.record(), labels.step))
}

pub fn masked(trial: &Trial, block: &[u8; 16], labels: Labels) -> Answer {
    let schedule = trial.schedule.bytes();
    let masks = trial.masks;
    answer(|output| {
        decrypt_masked(
            schedule,
            block,
            output,
            &masks,
            &labels.record(),
            labels.step,
        )
    })
}
