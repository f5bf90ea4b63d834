//! What a run answers.

ghost use Rattle.std.specs.Prelude.{◌≡◌, [], ◌∷◌, IfOk};
ghost use Rattle.run_frame.specs.Codes.{IsAnswered};

use crate::status::Status;
use command_line::Product;
use glass_base::{Memory, Run, append};
use std::alloc::Global;

/// A way to end that only prints.
#[derive(Drop)]
pub struct Notice {
    pub status: Status,
    pub lines: String,
    pub ghost answered: { IsAnswered status },
}

/// A file that is to be stored.
#[derive(Drop)]
pub struct Output {
    /// What it is; the command line says under which name that is stored.
    pub product: Product,
    pub bytes: Run<u8>,
}

/// What a run is to store, one file after another, and to print.
#[derive(Drop)]
pub struct Reply {
    pub status: Status,
    pub outputs: Run<Output>,
    pub lines: String,
    pub ghost answered: { IsAnswered status },
}

/// The outputs that are this one.
pub fn one_output(alloc: Global, product: Product, bytes: Run<u8>) -> Result<Run<Output>, Memory>
    ensures { IfOk result (λ outputs. outputs.items
        ≡ record { product = product; bytes = bytes } ∷ []) }
{
    let mut outputs = Run::new(alloc);
    append(&mut outputs, Output { product, bytes })?;
    Ok(outputs)
}
