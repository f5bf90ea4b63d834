//! The solution text of a plan, written line by line in one walk.

ghost use Rattle.std.specs.Prelude.{◌≡◌, ◌++◌, OnOk, IfOk, map, codes};
ghost use Rattle.cut_model.specs.Fits.{Fits};
ghost use Rattle.cut_model.specs.Tree.{tree};
ghost use Rattle.plan_csv.specs.Solutions.{header, row_line, rows_text, solution_text};

use csv_table::{Lines, optional, signed, unsigned};
use cut_model::{Family, Plan, Row, Visitor, walk};
use glass_base::{Instance, Memory, Run};
use itoa::Buffer;
use std::alloc::Global;

/// Writes the names of the columns.
fn write_header(lines: &mut Lines) -> Result<(), Memory>
    ensures { OnOk result (lines.new.text ≡ lines.old.text ++ header) }
{
    lines.write_line(&[
        b"PLATE_ID".as_slice(),
        b"NODE_ID".as_slice(),
        b"X".as_slice(),
        b"Y".as_slice(),
        b"WIDTH".as_slice(),
        b"HEIGHT".as_slice(),
        b"TYPE".as_slice(),
        b"CUT".as_slice(),
        b"PARENT".as_slice(),
    ])
}

/// Writes the line of a row.
fn write_row(lines: &mut Lines, row: &Row) -> Result<(), Memory>
    ensures { OnOk result (lines.new.text ≡ lines.old.text ++ row_line row.now) }
{
    let mut plate = Buffer::new();
    let mut node = Buffer::new();
    let mut x = Buffer::new();
    let mut y = Buffer::new();
    let mut width = Buffer::new();
    let mut height = Buffer::new();
    let mut kind = Buffer::new();
    let mut cut = Buffer::new();
    let mut parent = Buffer::new();
    let fields = [
        unsigned(&mut plate, u64::from(row.plate)),
        unsigned(&mut node, row.node),
        unsigned(&mut x, u64::from(row.x)),
        unsigned(&mut y, u64::from(row.y)),
        unsigned(&mut width, u64::from(row.width)),
        unsigned(&mut height, u64::from(row.height)),
        signed(&mut kind, row.kind),
        unsigned(&mut cut, u64::from(row.cut)),
        optional(&mut parent, row.parent),
    ];
    lines.write_line(&fields)
}

/// The lines of the rows told so far.
#[derive(Drop)]
struct Solution {
    lines: Lines,
}

impl Visitor for Solution {
    type Stop = Memory;

    ghost has_seen = { λ start now seen. now.lines.text ≡ start.lines.text ++ rows_text (map (λ f. f.row) seen) };

    fn visit(&mut self, family: &Family) -> Result<(), Memory> {
        write_row(&mut self.lines, &family.row)
    }
}

/// The solution text of a plan: a line with the names of the columns, and one for each plate and piece in order of node
/// number. It fails only where memory runs out.
pub fn write_plan(alloc: Global, instance: &Instance, plan: &Plan) -> Result<Run<u8>, Memory>
    requires { Fits (tree plan.now) }
    ensures { IfOk result (λ text. text.items ≡ solution_text instance.now (tree plan.now)) }
{
    let mut lines = Lines::new(alloc);
    write_header(&mut lines)?;
    let mut solution = Solution { lines };
    walk(&mut solution, instance, plan)?;
    solution.lines.into_text()
}
