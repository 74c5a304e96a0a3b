// The call that encrypts many blocks.
use aes::reply::Refusal;
use covers::answer::Answer;
use covers::key::Schedule;
use covers::labels::{ALL, Labels, turned};
use covers::trial::Trial;
use lines::counts::Tally;
use lines::row::Row;

// All vectors of a row in one call, with all labels of the first.
pub fn encrypted(row: &Row) -> Tally {
    let schedule = Schedule::of(&row.key);
    (0..ALL).fold(Tally::default(), |tally, i| {
        tally.with(encrypts(&schedule, turned(i), row))
    })
}

fn encrypts(schedule: &Schedule, labels: Labels, row: &Row) -> bool {
    let mut output = [[0; 16]; 16];
    let done = answer(
        schedule,
        row.plain.as_flattened(),
        labels,
        output.as_flattened_mut(),
    );
    done.is_ok() & (output == row.cipher)
}

// What the call replies is all that a step asks of it.
pub fn replied(trial: &Trial, _block: &[u8; 16], labels: Labels) -> Answer {
    answer(&trial.schedule, &[0; 256], labels, &mut [0; 256])?;
    Ok([0; 16])
}

fn answer(
    schedule: &Schedule,
    input: &[u8],
    labels: Labels,
    output: &mut [u8],
) -> Result<(), Refusal> {
    masked::encrypt_blocks(
        schedule.bytes(),
        input,
        output,
        &labels.offsets(),
        labels.step,
        0,
    )
}
