// The converter for what early modules stored in form 1, with the published masks and step 1. It is no masked run.
ghost use Rattle.std.specs.Prelude.{◌≡◌};
ghost use Rattle.aes.specs.Refusal.{reply};
ghost use Rattle.beside.specs.Stored.{convert_of};

use aes::add;
use aes::reply::Refusal;
use masks::constants::{mask, published, twice};
use masks::label::Label;

// Writes the standard block of a stored one: Mask(o+14) lies over it still, and takes itself off.
pub fn convert(input: &[u8], output: &mut [u8], offset: u8) -> Result<(), Refusal>
    ensures { (reply result, output.new) ≡ convert_of input.now output.old offset }
{
    let input = input.as_array::<16>().ok_or(Refusal::InputLength)?;
    if output.len() != 16 {
        return Err(Refusal::OutputLength);
    }
    if 15 < offset {
        return Err(Refusal::OffsetRange);
    }
    let last = Label::make(offset).next(14);
    output.copy_from_slice(&add(*input, mask(twice(published()), last)));
    Ok(())
}
