// The mask sheet: its reader and its writer. Unfit tables are read and written too.
ghost use Rattle.std.specs.Prelude.{◌≡◌, cond, ◌&&◌, ◌||◌, [], ◌∷◌, ◌≤◌, eqb, leb, length};
ghost use Rattle.aes.specs.Reply.{version, step_of, is_step, is_sheet_of, is_mask_table, refusal};
ghost use Rattle.aes.specs.Refusal.{reply, value};
ghost use Rattle.masks.specs.Sheet.{headed, read_checks, read_sheet_of, write_sheet_of};

use crate::step::taken;
use aes::reply::Refusal;

// Writes the masks of a sheet, and answers its step.
pub fn read_sheet(sheet: &[u8], masks: &mut [u8]) -> Result<u8, Refusal>
    ensures { (reply result, (value result, masks.new)) ≡ read_sheet_of sheet.now masks.old }
{
    check_read(sheet, masks)?;
    masks.copy_from_slice(&sheet[5..21]);
    Ok(step(sheet))
}

// Writes the sheet of sixteen masks and their step: in version 1 if that is 1, and else in version 2.
pub fn write_sheet(masks: &[u8], step: u8, sheet: &mut [u8]) -> Result<(), Refusal>
    ensures { (reply result, sheet.new) ≡ write_sheet_of masks.now step sheet.old }
{
    check_written(masks, step, sheet)?;
    if step == 1 {
        write_head(1, masks, sheet);
        return Ok(());
    }
    write_head(2, masks, &mut sheet[0..21]);
    sheet[21] = step;
    Ok(())
}

// The first check that fails, in their order.
fn check_read(sheet: &[u8], masks: &[u8]) -> Result<(), Refusal>
    ensures { reply result ≡ refusal (read_checks sheet.now masks.now) }
{
    if sheet.len() < 5 {
        return Err(Refusal::SheetLength);
    }
    if !sheet.starts_with(b"MSK") {
        return Err(Refusal::MarkWrong);
    }
    let version = version(sheet);
    if !matches!(version, 1 | 2) {
        return Err(Refusal::VersionUnknown);
    }
    if sheet.len() != size(version) {
        return Err(Refusal::SheetLength);
    }
    if !stepped(version, step(sheet)) {
        return Err(Refusal::StepWrong);
    }
    if masks.len() != 16 {
        return Err(Refusal::MasksLength);
    }
    Ok(())
}

fn check_written(masks: &[u8], step: u8, sheet: &[u8]) -> Result<(), Refusal>
    ensures { reply result ≡ refusal (is_step step ∷ is_sheet_of step sheet.now ∷ is_mask_table masks.now ∷ []) }
{
    if !taken(step) {
        return Err(Refusal::StepWrong);
    }
    if sheet.len() != size(step as usize) {
        return Err(Refusal::SheetLength);
    }
    if masks.len() != 16 {
        return Err(Refusal::MasksLength);
    }
    Ok(())
}

// Mark, version and masks.
fn write_head(version: u8, masks: &[u8], part: &mut [u8])
    requires { (length masks.now ≡ 16) × (length part.old ≡ 21) }
    ensures { part.new ≡ headed version masks.now }
{
    part[..5].copy_from_slice(&[b'M', b'S', b'K', 0, version]);
    part[5..].copy_from_slice(masks);
}

// Two bytes, the higher first.
fn version(sheet: &[u8]) -> usize
    requires { 5 ≤ length sheet.now }
    ensures { result ≡ version sheet.now }
{
    u16::from_be_bytes([sheet[3], sheet[4]]) as usize
}

// How long a sheet is, by its version or by its step.
fn size(one: usize) -> usize
    ensures { result ≡ cond (eqb one 1) 21 22 }
{
    if one == 1 { 21 } else { 22 }
}

// Can a sheet of this version have this step?
fn stepped(version: usize, step: u8) -> bool
    ensures { result ≡ (eqb version 1 || (leb 4 step && leb step 15)) }
{
    version == 1 || matches!(step, 4..=15)
}

fn step(sheet: &[u8]) -> u8
    requires { length sheet.now ≡ cond (eqb (version sheet.now) 1) 21 22 }
    ensures { result ≡ step_of sheet.now }
{
    if version(sheet) == 1 { 1 } else { sheet[21] }
}
