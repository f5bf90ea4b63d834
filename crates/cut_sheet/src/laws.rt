//! Laws of sheets. The functions do nothing: their contracts are the laws.

ghost use Rattle.std.specs.Prelude.{◌≡◌, List, Ok};
ghost use Rattle.glass_base.specs.Problem.{Problem, IsProblem};
ghost use Rattle.cut_model.specs.Lawful.{IsLawful};
ghost use Rattle.cut_model.specs.Shape.{IsPlanShaped};
ghost use Rattle.cut_model.specs.Tree.{Forest};
ghost use Rattle.cut_model.specs.Loss.{loss_of};
ghost use Rattle.cut_sheet.specs.declared.instr.Instr.{Instr};
ghost use Rattle.cut_sheet.specs.declared.instr.Made.{Made};
ghost use Rattle.cut_sheet.specs.Areas.{MakesUp, waste_area};
ghost use Rattle.cut_sheet.specs.ReadAgain.{OneReading, OneRefusal, RoundTrip};
ghost use Rattle.cut_sheet.specs.Replays.{replayed};
ghost use Rattle.cut_sheet.specs.Sheets.{IsCuttable, pieces_of, sheet_in};

/// A table that follows the sheet of a plan is never stuck, and the pieces that leave it are those of the plan that are not cut any further,
/// in cutting order: each on its plate, in its place, with its sides, its type and its cut.
pub fn sheets_make_their_plans()
    ensures { (b : Problem) → (plan : Forest) → IsPlanShaped plan → IsCuttable b plan
        → replayed b (sheet_in plan) ≡ Ok (pieces_of b plan) }
{}

/// No glass is lost: the pieces of a sheet that is not stuck make up the plates that it loads.
pub fn sheets_make_up_their_plates()
    ensures { (b : Problem) → (sheet : List Instr) → (made : List Made) → replayed b sheet ≡ Ok made
        → MakesUp b made }
{}

/// The wastes among the pieces of a plan have the area that the plan loses.
pub fn sheets_waste_what_plans_lose()
    ensures { (b : Problem) → (plan : Forest) → waste_area (pieces_of b plan) ≡ loss_of b plan }
{}

/// A lawful plan has a sheet.
pub fn lawful_plans_are_cuttable()
    ensures { (b : Problem) → (plan : Forest) → IsProblem b → IsLawful b plan → IsCuttable b plan }
{}

/// What is written of a sheet is read again as the same sheet.
pub fn round_trip()
    ensures { RoundTrip }
{}

/// A text that is a sheet's is that of no other one, and is refused for want of memory alone.
pub fn one_reading()
    ensures { OneReading }
{}

/// A text has one first refusal at the most, beside want of memory.
pub fn one_refusal()
    ensures { OneRefusal }
{}
