//! What a user may rely on, derived from the contract of `glass` alone. The functions do nothing: their contracts are the laws.
//!
//! Each speaks of any words, and of files that tell what they hold before the run.

ghost use Rattle.std.specs.Prelude.{ℕ, List};
ghost use Rattle.glass_io.specs.Told.{Contents};
ghost use Rattle.command_line.specs.Grammar.{Line};
ghost use Rattle.glass_run.specs.Headlines.{Ended, FindsLawful, FindsNoDraft, FindsUnlawful, HandlesEachBox, HandlesOpenBoxes, IsCheck, IsJudging, IsSearch, IsSearchEnd, StoresConverted, StoresLawfulPlan, StoresResumed, StoresSearch};
ghost use Rattle.glass_run.specs.FreezeHeadlines.{AcceptsFrom, FindsWrongFrom, HandlesEachBoxBehind, StoresFreeze, cut_already};
ghost use Rattle.run_frame.specs.Runs.{World};
ghost use Rattle.glass_run.specs.SheetHeadlines.{FollowsSheet, StoresSheet};
ghost use Rattle.command_line.specs.declared.kinds.Verb.{Verb};
ghost use Rattle.command_line.specs.declared.kinds.Verb.TheVariants as verb;
ghost use Rattle.run_frame.specs.declared.status.Status.{Status};
ghost use Rattle.run_frame.specs.declared.status.Status.TheVariants as status;

/// Where `draft` is done, OUT holds the text of a plan that is lawful on plates without defects, stored whole; all other names are as before; and what is
/// printed is this plan's loss and its number of plates.
pub fn done_drafts_are_lawful()
    ensures { (words : List (List ℕ)) → (line : Line) → (held : Contents) → (old new : World)
        → Ended words verb.Draft line held old new status.Done
        → StoresLawfulPlan line held old new }
{}

/// Where `draft` says that there is no draft, the item that is printed is the first that has no place, and nothing is stored.
pub fn missing_drafts_are_true()
    ensures { (words : List (List ℕ)) → (line : Line) → (held : Contents) → (old new : World)
        → Ended words verb.Draft line held old new status.NoDraft → FindsNoDraft line held old new }
{}

/// Where `plan` or `gen` ends with `optimal`, `stopped` or `infeasible`: a printed plan is lawful and has the printed loss, and OUT holds its text; CERT holds
/// the text of a certificate that is right for the box of all plans; every lawful plan loses at least the printed bound; `optimal` or `infeasible` is printed
/// exactly where no box is left open, by whether there is a plan; `stopped` only where exactly the budgeted number of boxes was closed or split; the plan is
/// never worse than the draft, nor than the plan that the file behind `--from=` says, which is lawful. Both texts are read again as this plan and this
/// certificate, and are no longer than those that are read, so `verify` accepts them with the printed bound and number of open boxes
/// (`right_texts_are_accepted`), or, with `--fronts` alone, does not show the floor again; without `--fronts` the floor is 0.
pub fn searches_are_right()
    ensures { (words : List (List ℕ)) → (line : Line) → (held : Contents) → (old new : World)
        → (result : Status) → (search : Verb) → IsSearch search → IsSearchEnd result
        → Ended words search line held old new result → StoresSearch line held old new result }
{}

/// There too, each box was handled once or is left open: the certificate is that of a lawful history of a search of all plans. No box was split that is
/// refuted, or whose bound reaches the loss of the plan with which the search began, which is never above the draft's. With `--watch` each loss behind the six
/// lines is that of a lawful plan and less than the one before, the first is that of the plan with which the search began, the last is the printed loss, and
/// where no plan is printed there is none.
pub fn searches_handle_each_box_once()
    ensures { (words : List (List ℕ)) → (line : Line) → (held : Contents) → (old new : World)
        → (result : Status) → (search : Verb) → IsSearch search → IsSearchEnd result
        → Ended words search line held old new result → HandlesEachBox line held old new }
{}

/// Where `freeze` ends with `optimal` or `stopped`, the plan that PLAN says is lawful, and OUT holds the text of a lawful plan that begins with its first K
/// plates, has the printed loss, and loses no more; every lawful plan that begins with these plates loses at least the printed bound; CERT holds the text of a
/// certificate that is right for the box of all plans of the instance that is left behind them; `optimal` is printed exactly where no box is left open, and
/// then loss and bound are equal; `stopped` only where exactly the budgeted number of boxes was closed or split. It never ends with `infeasible`. Both texts
/// are read again as this plan and this certificate, so `verify --frozen=K` accepts them (`right_texts_behind_first_plates_are_accepted`), or, with `--fronts`
/// alone, does not show the floor again.
pub fn searches_behind_first_plates_are_right()
    ensures { (words : List (List ℕ)) → (line : Line) → (held : Contents) → (old new : World)
        → (result : Status) → IsSearchEnd result → Ended words verb.Freeze line held old new result
        → StoresFreeze line held old new result }
{}

/// There too, each box of the instance that is left was handled once or is left open; no box was split that is refuted, or whose bound reaches the loss with
/// which the search began, which is never above what PLAN loses behind these plates.
pub fn searches_behind_first_plates_handle_each_box_once()
    ensures { (words : List (List ℕ)) → (line : Line) → (held : Contents) → (old new : World)
        → (result : Status) → IsSearchEnd result → Ended words verb.Freeze line held old new result
        → HandlesEachBoxBehind line held old new }
{}

/// Where `judge` is done, the plan that the text says is lawful, and what is printed is its loss.
pub fn done_judgements_are_lawful()
    ensures { (words : List (List ℕ)) → (line : Line) → (held : Contents) → (old new : World)
        → Ended words verb.Judge line held old new status.Done → FindsLawful line held old new }
{}

/// Where `plan --from`, `judge`, `verify`, `convert`, `resume`, `freeze` or `sheet` says unlawful, the plan that the text says is not lawful, and what is
/// printed is its first breach.
pub fn unlawful_judgements_are_true()
    ensures { (words : List (List ℕ)) → (line : Line) → (held : Contents) → (old new : World)
        → (judging : Verb) → IsJudging judging
        → Ended words judging line held old new status.Unlawful → FindsUnlawful line held old new }
{}

/// Where `verify` is done, the plan that PLAN says is lawful, or PLAN is a dash and stands for no plan; every lawful plan loses at least the printed bound, and
/// where that is `none`, there is no lawful plan; CERT says a certificate that shows it, which is right for the box of all plans and for the loss of the plan,
/// and leaves as many boxes open as is printed. With `--frozen=K` the plan has more than K plates, every lawful plan that begins with its first K plates loses
/// at least the printed bound, and CERT is right for the instance that is left behind them.
pub fn done_checks_are_right()
    ensures { (words : List (List ℕ)) → (line : Line) → (held : Contents) → (old new : World)
        → Ended words verb.Verify line held old new status.Done
        → AcceptsFrom (cut_already verb.Verify line) line held old new }
{}

/// Where `convert` is done, all that holds of `verify` holds, and NEW holds the text of the certificate of version 2, or of the same later one, that says the
/// same and names the cause of each closed box.
pub fn done_conversions_are_right()
    ensures { (words : List (List ℕ)) → (line : Line) → (held : Contents) → (old new : World)
        → Ended words verb.Convert line held old new status.Done
        → StoresConverted line held old new }
{}

/// Where `resume` ends with `optimal`, `stopped` or `infeasible`, all that holds of `verify` holds of PLAN and CERT, and a search went on in the boxes that
/// CERT leaves open: a printed plan is lawful, has the printed loss and loses no more than that of PLAN, and where PLAN is given one is printed; OUT holds its
/// text; NEW holds the text of a certificate that is right for the box of all plans and this loss: that of CERT with its causes named and with a tree in the
/// place of each open node, whose floor is no less than that of CERT, and the same without `--fronts`; every lawful plan loses at least the printed bound;
/// `stopped` is printed exactly where a box is left open, and then as many boxes were closed or split as CERT tells of and the budget says. Both texts are read
/// again as this plan and this certificate, and are no longer than those that are read, so `verify` accepts them, or does not show the floor again, where there
/// is one.
pub fn resumptions_are_right()
    ensures { (words : List (List ℕ)) → (line : Line) → (held : Contents) → (old new : World)
        → (result : Status) → IsSearchEnd result → Ended words verb.Resume line held old new result
        → StoresResumed line held old new result }
{}

/// There too, each box that CERT leaves open, and each of its parts, was handled once or is left open; none was split that is refuted, or whose bound reaches
/// the loss of the plan from which the search went on, which is never above that of PLAN.
pub fn resumptions_handle_each_box_once()
    ensures { (words : List (List ℕ)) → (line : Line) → (held : Contents) → (old new : World)
        → (result : Status) → IsSearchEnd result → Ended words verb.Resume line held old new result
        → HandlesOpenBoxes line held old new }
{}

/// Where `verify`, `convert` or `resume` says refused, the plan that PLAN says is lawful, or there is none, but the certificate that CERT says is not right for
/// it (of `verify` with `--frozen=K`: for the instance that is left behind its first K plates), or its floor was not shown, and what is printed is the first
/// check that it fails.
pub fn refused_checks_are_true()
    ensures { (words : List (List ℕ)) → (line : Line) → (held : Contents) → (old new : World)
        → (check : Verb) → IsCheck check → Ended words check line held old new status.Refused
        → FindsWrongFrom (cut_already check line) line held old new }
{}

/// Where `sheet` is done, the plan that PLAN says is lawful, OUT holds the text of a sheet, stored whole, and all other names are as before. A table that
/// follows this sheet is never stuck, and the pieces that leave it are those of the plan that are not cut any further, in cutting order, each on its plate, in
/// its place, with its sides, its type and its cut. `replay` of the stored text tells of these pieces, and the waste that it prints is the loss of the plan.
pub fn done_sheets_make_their_plans()
    ensures { (words : List (List ℕ)) → (line : Line) → (held : Contents) → (old new : World)
        → Ended words verb.Sheet line held old new status.Done → StoresSheet line held old new }
{}

/// Where `replay` is done, a table follows the sheet that SHEET says to its end; how many pieces leave it, how many cuts it makes and the area of the wastes is
/// printed, and the pieces make up the plates that were loaded: no glass is lost.
pub fn done_replays_are_true()
    ensures { (words : List (List ℕ)) → (line : Line) → (held : Contents) → (old new : World)
        → Ended words verb.Replay line held old new status.Done → FollowsSheet line held old new }
{}
