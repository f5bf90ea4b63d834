//! What a user may rely on, derived from the contract of `glass_picture` alone. The function does nothing: its
//! contract is the law.

ghost use Rattle.std.specs.Prelude.{ℕ, List};
ghost use Rattle.glass_io.specs.Told.{Contents};
ghost use Rattle.command_line.specs.Grammar.{PictureLine};
ghost use Rattle.run_frame.specs.Runs.{World};
ghost use Rattle.run_frame.specs.declared.status.Status.TheVariants as status;
ghost use Rattle.picture_run.specs.PictureHeadlines.{PictureEnded, StoresPicture};

/// Where the program that draws is done, OUT holds the text of a picture of the plan that PLAN says, stored whole, with exactly one rectangle of a piece for
/// each row, in the row's place and size and on its plate; the plates stand one below the other, each with its defects, the piece that breaks a rule is
/// outlined, and the texts tell the loss or the breach, the numbers of plates and items, each plate's sides, and of pieces only what is true of one; all other
/// names are as before; and what is printed is the plan's loss where it is lawful, and else its first breach.
pub fn done_pictures_are_true()
    ensures { (words : List (List ℕ)) → (line : PictureLine) → (held : Contents) → (old new : World)
        → PictureEnded words line held old new status.Done → StoresPicture line held old new }
{}
