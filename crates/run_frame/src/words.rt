//! The words of a program.

ghost use Rattle.std.specs.Prelude.{◌≡◌, [], IfErr, IfOk, IfSome, MatchOption};

use std::alloc::Global;
use std::env::Env;
use std::io::ErrorKind;
use std::{env, io};

/// The words that a run is given: none of them where one is not text, and nothing where memory ran out.
pub fn words_taken(words: &io::Result<Vec<String>>) -> Option<&[String]>
    ensures given { IfOk words.now (λ given. MatchOption result ⊥ (λ taken. taken.now
        ≡ given.items)) }
    ensures wrong { IfErr words.now (λ _. IfSome result (λ taken. taken.now ≡ [])) }
{
    match words {
        Ok(words) => Some(words.as_slice()),
        Err(e) => match e.kind() {
            ErrorKind::OutOfMemory => None,
            _ => Some(&[]),
        },
    }
}

/// The words after the program's name. A word that is not text is an error.
pub fn words_given(rt: &(impl Env + AllocGlobal)) -> io::Result<Vec<String>> {
    let mut words = env::args(rt)?;
    let _ = words.next();
    Ok(words.collect(rt.alloc())?)
}
