// The calls, and what they check.
ghost use Rattle.std.specs.Prelude.{◌≡◌, [], ◌∷◌, ◌+◌, ◌*◌, length, IfOk};
ghost use Rattle.aes.specs.Reply.{refusal, is_full_schedule, is_offset, is_key_data, is_wrapped_of};
ghost use Rattle.aes.specs.Refusal.{reply};
ghost use Rattle.wrap.specs.Calls.{wrap_by, unwrap_by, wrap_of, wrap_masked_of, unwrap_of, unwrap_masked_of};
ghost use Rattle.wrap.specs.Engines.{offset_of, sealed, opened};

use crate::engine::{Engine, Keyed};
use aes::reply::Refusal;

pub fn wrap(schedule: &[u8], key_data: &[u8], wrapped: &mut [u8]) -> Result<(), Refusal>
    ensures { (reply result, wrapped.new) ≡ wrap_of schedule.now key_data.now wrapped.old }
{
    wrap_by(Engine::Plain, schedule, key_data, wrapped)
}

pub fn wrap_masked(
    schedule: &[u8],
    key_data: &[u8],
    wrapped: &mut [u8],
    offset: u8,
) -> Result<(), Refusal>
    ensures { (reply result, wrapped.new) ≡ wrap_masked_of schedule.now key_data.now wrapped.old offset }
{
    wrap_by(Engine::Masked(offset), schedule, key_data, wrapped)
}

pub fn unwrap(schedule: &[u8], wrapped: &[u8], key_data: &mut [u8]) -> Result<(), Refusal>
    ensures { (reply result, key_data.new) ≡ unwrap_of schedule.now wrapped.now key_data.old }
{
    unwrap_by(Engine::Plain, schedule, wrapped, key_data)
}

pub fn unwrap_masked(
    schedule: &[u8],
    wrapped: &[u8],
    key_data: &mut [u8],
    offset: u8,
) -> Result<(), Refusal>
    ensures { (reply result, key_data.new) ≡ unwrap_masked_of schedule.now wrapped.now key_data.old offset }
{
    unwrap_by(Engine::Masked(offset), schedule, wrapped, key_data)
}

fn wrap_by(
    engine: Engine,
    schedule: &[u8],
    key_data: &[u8],
    wrapped: &mut [u8],
) -> Result<(), Refusal>
    ensures { (reply result, wrapped.new) ≡ wrap_by (sealed engine schedule.now) (is_full_schedule schedule.now ∷ is_offset (offset_of engine) ∷ []) key_data.now wrapped.old }
{
    let keyed = keyed(engine, schedule, key_data, wrapped)?;
    keyed.seal(key_data, wrapped);
    Ok(())
}

fn unwrap_by(
    engine: Engine,
    schedule: &[u8],
    wrapped: &[u8],
    key_data: &mut [u8],
) -> Result<(), Refusal>
    ensures { (reply result, key_data.new) ≡ unwrap_by (opened engine schedule.now) (is_full_schedule schedule.now ∷ is_offset (offset_of engine) ∷ []) wrapped.now key_data.old }
{
    let keyed = keyed(engine, schedule, key_data, wrapped)?;
    keyed.unseal(wrapped, key_data)
}

// The checks in their order, and what runs where they hold.
fn keyed<'a>(
    engine: Engine,
    schedule: &'a [u8],
    key_data: &[u8],
    wrapped: &[u8],
) -> Result<Keyed<'a>, Refusal>
    ensures told { reply result ≡ refusal (is_full_schedule schedule.now ∷ is_offset (offset_of engine) ∷ is_key_data key_data.now ∷ is_wrapped_of key_data.now wrapped.now ∷ []) }
    ensures lent { IfOk result (λ k. (k.engine ≡ engine) × (k.schedule.now ≡ schedule.now) × (length key_data.now ≡ 8 * k.n) × (length wrapped.now ≡ 8 * k.n + 8)) }
{
    if schedule.len() != 240 {
        return Err(Refusal::ScheduleLength);
    }
    if 15 < engine.offset() {
        return Err(Refusal::OffsetRange);
    }
    let length = key_data.len();
    if length % 8 != 0 || length < 16 || 256 < length {
        return Err(Refusal::KeyDataLength);
    }
    if wrapped.len() != length + 8 {
        return Err(Refusal::WrappedLength);
    }
    Ok(Keyed {
        engine,
        schedule,
        n: length / 8,
    })
}
