ghost use Rattle.std.specs.Prelude.{◌≡◌, [], ◌∷◌, IfOk, All};
ghost use Rattle.cut_model.specs.Fits.{Fits};
ghost use Rattle.cut_model.specs.Tree.{tree};
ghost use Rattle.glass_base.specs.Items.{IsDefectInRange, IsItemInRange};

use cut_model::{Body1, Piece1, Plan, Plate, fits, rows};
use cut_rules::judge_cuts;
use defect_map::DefectMap;
use glass_base::{Defect, Instance, Item, Memory, Params, Run, append};
use loss_area::loss;
use stack_order::judge_order;
use std::alloc::Global;
use std::process::Abort;
use std::test::Fail;

fn one<T: Drop>(alloc: Global, value: T) -> Result<Run<T>, Memory>
    ensures { IfOk result (λ run. run.items ≡ value ∷ []) }
{
    let mut run = Run::new(alloc);
    append(&mut run, value)?;
    Ok(run)
}

/// The instance of one item of 1000 by 3210, with a defect from 1060 to 1070 and from 95 to 105 on plate 0.
fn flawed(alloc: Global) -> Result<Instance, Fail> {
    let item = Item {
        id: 7,
        length: 1000,
        width: 3210,
        stack: 5,
        sequence: 1,
    };
    let defect = Defect {
        plate: 0,
        x0: 1060,
        y0: 95,
        x1: 1070,
        y1: 105,
    };
    let items = one(alloc, item)?;
    Ok(Instance::new(alloc, Params::usual(), items, one(alloc, defect)?)?)
}

/// The plan that cuts this item at the left end of a plate and keeps the rest.
fn plan(alloc: Global) -> Result<Plan, Fail> {
    let item = Piece1 {
        width: 1000,
        body: Body1::Item(7),
    };
    let residual = Piece1 {
        width: 5000,
        body: Body1::Residual,
    };
    let mut pieces = one(alloc, item)?;
    append(&mut pieces, residual)?;
    Ok(Plan {
        plates: one(alloc, Plate { pieces })?,
    })
}

#[test]
fn runs_keep_their_room(rt: HostRuntime) -> Result<(), Fail> {
    let mut run = Run::new(rt.alloc());
    run.reserve(2)?;
    run.put(7);
    run.put(8);
    append(&mut run, 9)?;
    run.extend_from_slice(&[4, 1])?;
    let pushed = run.push(2).is_ok();
    let old = run.set(0, 5);
    assert_eq!(rt;
        (
            pushed,
            old,
            run.get(0).copied(),
            run.get(6).copied(),
            run.len(),
            run.is_empty()
        ),
        (true, 7, Some(5), None, 6, false)
    );
    assert_eq!(rt; run.pop(), Some(2));
    assert_eq!(rt; run.as_slice(), [5, 8, 9, 4, 1].as_slice());
    Ok(())
}

fn has_its_lists(rt: &impl Abort, instance: &Instance) {
    assert_eq!(rt; (instance.area(), instance.stacks()), (3_210_000, 1));
    assert_eq!(rt; instance.stack(0), [0].as_slice());
    assert_eq!(rt; (instance.items().len(), instance.defects().len()), (1, 1));
    assert_eq!(rt;
        (
            instance.params().height,
            instance.width(99),
            instance.before(2)
        ),
        (3210, 6000, 12_000)
    );
}

#[test]
fn an_instance_has_its_lists(rt: HostRuntime) -> Result<(), Fail> {
    let instance = flawed(rt.alloc())?;
    has_its_lists(&rt, &instance);
    Ok(())
}

fn stands_in_the_way(rt: &impl Abort, map: &DefectMap) {
    let hits = (
        map.hits(0, 1050, 90, 1061, 96),
        map.hits_all(0, (1010, 1065), 60, (50, 100), 50),
        map.hits_all(0, (1010, 1070), 60, (50, 100), 50),
    );
    assert_eq!(rt; hits, (true, true, false));
    let crosses_x = (
        map.crosses_x(0, 1065, 104, 200),
        map.crosses_x_all(0, (1061, 1069), 0, 3210),
        map.crosses_x_all(0, (1060, 1069), 0, 3210),
    );
    assert_eq!(rt; crosses_x, (true, true, false));
    let crosses_y = (
        map.crosses_y(0, 100, 1000, 1100),
        map.crosses_y_all(0, (96, 104), 0, 6000),
        map.crosses_y_all(0, (96, 105), 0, 6000),
    );
    assert_eq!(rt; crosses_y, (true, true, false));
}

#[test]
fn defects_stand_in_the_way(rt: HostRuntime) -> Result<(), Fail> {
    let map = DefectMap::new(rt.alloc(), &flawed(rt.alloc())?)?;
    stands_in_the_way(&rt, &map);
    Ok(())
}

fn row_count(alloc: Global, instance: &Instance, plan: &Plan) -> Result<usize, Fail>
    requires { Fits (tree plan.now) }
{
    Ok(rows(alloc, instance, plan)?.len())
}

fn keeps_cut_rules(alloc: Global, instance: &Instance, plan: &Plan) -> Result<bool, Fail>
    requires { Fits (tree plan.now) }
{
    let map = DefectMap::new(alloc, instance)?;
    Ok(judge_cuts(instance, &map, plan).is_ok())
}

fn keeps_order(alloc: Global, instance: &Instance, plan: &Plan) -> Result<bool, Fail>
    requires { Fits (tree plan.now) }
{
    Ok(judge_order(alloc, instance, plan)?.is_ok())
}

/// The number of rows of a plan, whether the judges find it lawful, and its loss.
fn judged(alloc: Global, instance: &Instance, plan: &Plan) -> Result<(usize, bool, bool, u64), Fail>
    requires { Fits (tree plan.now) }
{
    Ok((
        row_count(alloc, instance, plan)?,
        keeps_cut_rules(alloc, instance, plan)?,
        keeps_order(alloc, instance, plan)?,
        loss(instance, plan),
    ))
}

fn plan_judged(
    rt: &impl Abort,
    alloc: Global,
    instance: &Instance,
) -> Result<(usize, bool, bool, u64), Fail> {
    let plan = plan(alloc)?;
    assert!(rt; fits(&plan));
    judged(alloc, instance, &plan)
}

#[test]
fn a_plan_is_judged(rt: HostRuntime) -> Result<(), Fail> {
    let instance = flawed(rt.alloc())?;
    let answers = plan_judged(&rt, rt.alloc(), &instance)?;
    assert_eq!(rt; answers, (3, true, true, 0));
    Ok(())
}
