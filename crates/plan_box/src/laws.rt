//! Laws of the definitions on boxes. The functions do nothing: their contracts are the laws.

ghost use Rattle.std.specs.Prelude.{◌≡◌, ◌≤◌, ◌-◌, ◌*◌, ℕ, List, IsTrue, length};
ghost use Rattle.glass_base.specs.Items.{area_of};
ghost use Rattle.glass_base.specs.Problem.{Problem, IsProblem};
ghost use Rattle.cut_model.specs.declared.steps.Step.{Step};
ghost use Rattle.cut_model.specs.Lawful.{IsLawful};
ghost use Rattle.cut_model.specs.Loss.{loss_of};
ghost use Rattle.cut_model.specs.Steps.{length_of};
ghost use Rattle.cut_model.specs.Traces.{trace_of};
ghost use Rattle.cut_model.specs.Tree.{Forest};
ghost use Rattle.plan_trace.specs.Claims.{IsComplete};
ghost use Rattle.plan_trace.specs.Marks.{spots};
ghost use Rattle.plan_trace.specs.TraceRules.{Meets};
ghost use Rattle.plan_box.specs.declared.frame.Frame.{Frame};
ghost use Rattle.plan_box.specs.declared.reason.Reason.{Reason};
ghost use Rattle.plan_box.specs.declared.var.Var.{Var};
ghost use Rattle.plan_box.specs.Ranges.{PlainBox, IsBox, Ranges, InBox, root_of};
ghost use Rattle.plan_box.specs.Frames.{frame_of};
ghost use Rattle.plan_box.specs.Decisions.{IsPoint, is_free, all_decided, numbers_of};
ghost use Rattle.plan_box.specs.Frames.{IsFrame};
ghost use Rattle.plan_box.specs.Plans.{HoldsPlan};
ghost use Rattle.plan_box.specs.Halves.{lower_half, upper_half, child_of, IsShared, Choice, IsPath, IsDepth};
ghost use Rattle.plan_box.specs.Leasts.{HoldAll, known, least_steps};
ghost use Rattle.plan_box.specs.Bounds.{bound};
ghost use Rattle.plan_box.specs.Reasons.{AtSome, StepR1, IsRefuted, IsFirstReason};

/// Each cut of each decided step of a trace in a box lies between its least value and its high end.
pub fn cuts_lie_between_their_ends()
    ensures { (b : Problem) (rs : List Ranges) (ss : List Step) → InBox ss rs → Meets b ss
        → HoldAll (known b rs) (spots b ss) }
{}

/// No trace that meets the rules and has a step for each item is in a box to which a reason applies.
pub fn refuted_boxes_hold_no_trace()
    ensures { (b : Problem) → IsProblem b → (rs : List Ranges) (ss : List Step) → InBox ss rs
        → IsComplete b ss → ¬ IsRefuted b rs }
{}

/// Such a trace in a box loses at least the box's bound.
pub fn bounds_are_no_loss_too_high()
    ensures { (b : Problem) → IsProblem b → (rs : List Ranges) (ss : List Step) → InBox ss rs
        → IsComplete b ss → bound b rs ≤ b.params.height * length_of b ss - area_of b.items }
{}

/// There is one first reason at the most.
pub fn first_reasons_are_one()
    ensures { (b : Problem) (rs : List Ranges) (x y : Reason) → IsFirstReason b rs x
        → IsFirstReason b rs y → x ≡ y }
{}

/// A trace is in a box exactly where it is in one of the halves at a free variable, and in no more than one.
pub fn halves_share_a_box()
    ensures { (x : PlainBox) → IsBox x → (step : ℕ) (v : Var) → IsTrue (is_free x.ranges step v)
        → (ss : List Step) → IsShared ss x.ranges step v }
{}

/// The halves of a box at a free variable are boxes.
pub fn halves_are_boxes()
    ensures lower { (x : PlainBox) → IsBox x → (step : ℕ) (v : Var) (id : ℕ)
        → IsTrue (is_free x.ranges step v) → IsBox (child_of lower_half x step v id) }
    ensures upper { (x : PlainBox) → IsBox x → (step : ℕ) (v : Var) (id : ℕ)
        → IsTrue (is_free x.ranges step v) → IsBox (child_of upper_half x step v id) }
{}

/// The root is a box, and holds each trace that meets the rules and has a step for each item.
pub fn roots_hold_each_trace()
    ensures boxes { (f : Frame) (id : ℕ) → IsBox (root_of f id) }
    ensures traces { (b : Problem) (id : ℕ) (ss : List Step) → IsComplete b ss
        → InBox ss (root_of (frame_of b) id).ranges }
{}

/// In a point all steps are decided, and where no cut can lie nowhere, its own numbers are its least values.
pub fn points_are_their_least_values()
    ensures decided { (rs : List Ranges) → IsPoint rs → IsTrue (all_decided rs) }
    ensures numbers { (b : Problem) (rs : List Ranges) → IsPoint rs → ¬ AtSome StepR1 b rs
        → least_steps (known b rs) ≡ numbers_of rs }
{}

/// The least values of a point that is not refuted meet the rules.
pub fn points_are_refuted_or_meet_the_rules()
    ensures { (b : Problem) (rs : List Ranges) → IsPoint rs → ¬ IsRefuted b rs
        → Meets b (least_steps (known b rs)) }
{}

/// The bound of a box in which a step is decided is at least the loss of its least values.
pub fn bounds_reach_the_least_values()
    ensures { (b : Problem) (rs : List Ranges) → 1 ≤ length (known b rs)
        → b.params.height * length_of b (least_steps (known b rs)) - area_of b.items ≤ bound b rs }
{}

/// No path of splits from a root is longer than its frame's depth, which every frame has, and which is at most 90 an item.
pub fn paths_of_splits_end()
    ensures paths { (f : Frame) (id depth : ℕ) → IsDepth f depth → (path : List Choice)
        → IsPath (root_of f id).ranges path → length path ≤ depth }
    ensures depths { (f : Frame) → (depth : ℕ) × IsDepth f depth }
    ensures limit { (f : Frame) (depth : ℕ) → IsFrame f → IsDepth f depth → depth ≤ 90 * f.items }
{}

/// The least values of a box of an instance in which all steps are decided have a step for each item.
pub fn decided_boxes_are_probed_whole()
    ensures { (b : Problem) (x : PlainBox) → IsBox x → x.frame ≡ frame_of b
        → IsTrue (all_decided x.ranges) → Meets b (least_steps (known b x.ranges))
        → IsComplete b (least_steps (known b x.ranges)) }
{}

/// The root holds every lawful plan.
pub fn roots_hold_each_plan()
    ensures { (b : Problem) → IsProblem b → (plan : Forest) → IsLawful b plan → (id : ℕ)
        → HoldsPlan b (root_of (frame_of b) id).ranges plan }
{}

/// No lawful plan is in a box to which a reason applies.
pub fn refuted_boxes_hold_no_plan()
    ensures { (b : Problem) → IsProblem b → (plan : Forest) → IsLawful b plan → (rs : List Ranges)
        → IsRefuted b rs → ¬ HoldsPlan b rs plan }
{}

/// A lawful plan in a box loses at least the box's bound.
pub fn bounds_are_below_each_loss()
    ensures { (b : Problem) → IsProblem b → (plan : Forest) → IsLawful b plan → (rs : List Ranges)
        → HoldsPlan b rs plan → bound b rs ≤ loss_of b plan }
{}

/// A lawful plan in a box is in one of its halves at a free variable, and in no more than one; one in a half is in the box.
pub fn halves_share_the_plans()
    ensures { (b : Problem) → (plan : Forest) → (x : PlainBox) → IsBox x → (step : ℕ) (v : Var)
        → IsTrue (is_free x.ranges step v) → IsShared (trace_of b plan) x.ranges step v }
{}
