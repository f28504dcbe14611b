//! A team in a program's own process, for C: two functions on numbers, by which a program that is not
//! Rattle opens an engine and asks its team.
//!
//! [`dillbeam_open`] makes an engine and gives it away as a pointer; [`dillbeam_step`] asks it what
//! words say, and answers in numbers. What C must keep to is in the README.
#![tactic(auto)]

ghost use types.Logic.{sem};
ghost use Rattle.std.specs.Prelude.{◌≡◌, ◌≢◌, ◌≤◌, ◌↔◌, IsErr};
ghost use Rattle.std.specs.Str.{IsUtf8};
ghost use Rattle.std.specs.Ptr.{points_to};
ghost use Rattle.gomp_engine.specs.contracts.engine.Engine.{the_row};
ghost use Rattle.gomp_engine.specs.declared.engine.Engine.{Engine};
ghost use Rattle.gomp_engine.specs.Engines.{Stepped};

pub mod answer;
pub mod call;
pub mod engine;
pub mod settings;

use engine::{Engine, OpenError};
use gomp_words::Numbers;
use std::alloc::{AllocError, Global};

/// Makes an engine by these settings, a text of lines NAME=VALUE, in which no team stands yet, and
/// writes where it lies. The answer is 0 then; 1 if the text is not UTF-8, and 2 if memory was
/// refused: nothing is written in these cases.
///
/// The pointer is of no type that owns memory, since the type of a C function may lead to none.
#[unsafe(no_mangle)]
pub extern "C" fn dillbeam_open(alloc: Global, settings: &[u8], out: &mut *mut u8) -> u64
    ensures number { result ≤ 2 }
    ensures text { result ≡ 1 ↔ (IsUtf8 settings.now → ⊥) }
    ensures kept { result ≢ 0 → out.new ≡ out.old }
{
    match Engine::open(alloc, settings) {
        Ok(engine) => match give_away(alloc, engine, out) {
            Ok(()) => 0,
            Err(_) => 2,
        },
        Err(OpenError::NotUtf8) => 1,
        Err(OpenError::NoMemory) => 2,
    }
}

/// Puts a value on the heap and writes where it lies; nothing is written if memory is refused. C may
/// hand the pointer from thread to thread, so the value has to be `Send`.
fn give_away<T: Send + Drop>(alloc: Global, value: T, out: &mut *mut u8) -> Result<(), AllocError>
    ensures { IsErr result → out.new ≡ out.old }
{
    match Box::new(alloc, value) {
        Ok(boxed) => {
            *out = Box::into_raw(boxed).cast();
            Ok(())
        }
        Err(_) => Err(AllocError),
    }
}

/// Answers what these words ask of the engine at this place, and leaves it there: `Stepped` in
/// specs/Engines.antt says what.
#[unsafe(no_mangle)]
pub unsafe extern "C" fn dillbeam_step(at: *mut u8, words: &[u64]) -> Numbers
    ghost old: { Engine }
    requires* { sem 𝓛 (points_to the_row at old) }
    ensures* { ∃ₛ (λ (new : Engine). sem 𝓛 (points_to the_row at new) ∗
        ⌜ Stepped old new words.now result ⌝) }
{
    let engine = at as *mut Engine;
    Engine::step(&mut *engine, words)
}
