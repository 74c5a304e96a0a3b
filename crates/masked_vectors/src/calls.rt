// The calls that encrypt a block, with the published masks and with others.
use covers::answer::{Answer, answer};
use covers::labels::Labels;
use covers::trial::Trial;
use masked::{encrypt_masked, encrypt_published};

pub fn published(trial: &Trial, block: &[u8; 16], labels: Labels) -> Answer {
    let schedule = trial.schedule.bytes();
    answer(|output| {
        encrypt_published(schedule, block, output, &labels.record(), labels.step, 0)
    })
}

pub fn masked(trial: &Trial, block: &[u8; 16], labels: Labels) -> Answer {
    let schedule = trial.schedule.bytes();
    let masks = trial.masks;
    answer(|output| {
        encrypt_masked(
            schedule,
            block,
            output,
            &masks,
            &labels.record(),
            labels.step,
            0,
        )
    })
}
