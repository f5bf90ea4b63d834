//! The instance that the texts of a command say.

ghost use Rattle.std.specs.Prelude.{◌≡◌, All, IfErr, IfOk, MatchResult, Ok, option_map};
ghost use Rattle.glass_base.specs.Items.{IsDefectInRange, IsItemInRange};
ghost use Rattle.glass_base.specs.Widths.{AreWidths};
ghost use Rattle.csv_table.specs.Readings.{Gives};
ghost use Rattle.run_frame.specs.Forms.{OnTold, texts_in};
ghost use Rattle.run_plans.specs.Instances.{AreParams, InstanceRefused, IsInstanceOf, RefusesParams, SayAll, SayLists, SayStock, defects_in, items_said, widths_in};

use batch_csv::read_batch;
use glass_base::{BadInstance, BadText, Defect, Instance, Item, Params, Role, Run, same_widths};
use run_frame::{Stop, Text, lists_refusal, stop_at, text_of_role, text_or_empty, text_refusal};
use std::alloc::Global;
use stock_csv::{read_defects, read_params, read_plates};

/// The defects of a text, or none.
fn defects_of(alloc: Global, text: Option<&[u8]>) -> Result<Run<Defect>, BadText>
    ensures defects { Gives (λ run. run.items) result
        (defects_in (option_map (λ bytes. bytes.now) text.entry)) }
    ensures ranges { IfOk result (λ run. All IsDefectInRange run.items) }
{
    match text {
        None => Ok(Run::new(alloc)),
        Some(bytes) => read_defects(alloc, bytes),
    }
}

/// The parameters of a text, or the challenge's.
fn params_of(alloc: Global, text: Option<&[u8]>) -> Result<Params, BadText>
    ensures params { IfOk result (AreParams (option_map (λ bytes. bytes.now) text.entry)) }
    ensures refused { IfErr result (RefusesParams (option_map (λ bytes. bytes.now) text.entry)) }
{
    match text {
        None => Ok(Params::usual()),
        Some(bytes) => read_params(alloc, bytes),
    }
}

/// The widths of the plates by a text, or the parameters' width for each.
fn widths_of(alloc: Global, params: &Params, text: Option<&[u8]>) -> Result<Run<u32>, BadText>
    ensures widths { Gives (λ run. run.items) result
        (widths_in params.now (option_map (λ bytes. bytes.now) text.entry)) }
    ensures ranges { IfOk result (λ run. AreWidths params.now run.items) }
{
    match text {
        None => Ok(same_widths(alloc, params)?),
        Some(bytes) => read_plates(alloc, params, bytes),
    }
}

/// The items that the batch says.
fn read_items(alloc: Global, texts: &[Text], flaws: Option<&[u8]>) -> Result<Run<Item>, Stop>
    ensures said { MatchResult result (λ items. items_said (texts_in texts.now)
        ≡ Ok items.items) (OnTold (InstanceRefused (texts_in texts.now)
        (option_map (λ bytes. bytes.now) flaws.entry))) }
    ensures ranges { IfOk result (λ items. All IsItemInRange items.items) }
{
    match read_batch(alloc, text_or_empty(texts, Role::Batch)) {
        Ok(items) => Ok(items),
        Err(reason) => Err(stop_at(alloc, text_refusal(Role::Batch, reason))),
    }
}

/// The defects that go with these items.
fn read_defects_with(
    alloc: Global,
    texts: &[Text],
    flaws: Option<&[u8]>,
    _items: &[Item],
) -> Result<Run<Defect>, Stop>
    requires { items_said (texts_in texts.now) ≡ Ok _items.now }
    ensures said { MatchResult result (λ defects.
        SayLists (texts_in texts.now) (option_map
        (λ bytes. bytes.now) flaws.entry) _items.now defects.items)
        (OnTold (InstanceRefused (texts_in texts.now)
        (option_map (λ bytes. bytes.now) flaws.entry))) }
    ensures ranges { IfOk result (λ defects. All IsDefectInRange defects.items) }
{
    match defects_of(alloc, flaws) {
        Ok(defects) => Ok(defects),
        Err(reason) => Err(stop_at(alloc, text_refusal(Role::Defects, reason))),
    }
}

/// The parameters that go with these lists.
fn read_params_with(
    alloc: Global,
    texts: &[Text],
    flaws: Option<&[u8]>,
    _items: &[Item],
    _defects: &[Defect],
) -> Result<Params, Stop>
    requires { SayLists (texts_in texts.now) (option_map
        (λ bytes. bytes.now) flaws) _items.now _defects.now }
    ensures { MatchResult result (SayStock (texts_in texts.now)
        (option_map (λ bytes. bytes.now) flaws.entry) _items.now _defects.now)
        (OnTold (InstanceRefused (texts_in texts.now)
        (option_map (λ bytes. bytes.now) flaws.entry))) }
{
    match params_of(alloc, text_of_role(texts, Role::Params)) {
        Ok(params) => Ok(params),
        Err(reason) => Err(stop_at(alloc, text_refusal(Role::Params, reason))),
    }
}

/// The widths of the plates that go with these lists and parameters.
fn read_widths_with(
    alloc: Global,
    texts: &[Text],
    flaws: Option<&[u8]>,
    _items: &[Item],
    _defects: &[Defect],
    params: &Params,
) -> Result<Run<u32>, Stop>
    requires { SayStock (texts_in texts.now) (option_map
        (λ bytes. bytes.now) flaws) _items.now _defects.now params.now }
    ensures said { MatchResult result (λ widths.
        SayAll (texts_in texts.now) (option_map
        (λ bytes. bytes.now) flaws.entry) _items.now _defects.now params.now widths.items)
        (OnTold (InstanceRefused (texts_in texts.now)
        (option_map (λ bytes. bytes.now) flaws.entry))) }
    ensures ranges { IfOk result (λ widths. AreWidths params.now widths.items) }
{
    match widths_of(alloc, params, text_of_role(texts, Role::Plates)) {
        Ok(widths) => Ok(widths),
        Err(reason) => Err(stop_at(alloc, text_refusal(Role::Plates, reason))),
    }
}

/// The instance that the texts say, with the defects of one of them or none, or what is told of the first text that is refused, or of lists that make no instance: the batch,
/// the defects, the parameters and the widths of plates are read in this order.
pub fn instance_of(alloc: Global, texts: &[Text], flaws: Option<&[u8]>) -> Result<Instance, Stop>
    ensures { MatchResult result (IsInstanceOf (texts_in texts.now)
        (option_map (λ bytes. bytes.now) flaws.entry))
        (OnTold (InstanceRefused (texts_in texts.now)
        (option_map (λ bytes. bytes.now) flaws.entry))) }
{
    let items = read_items(alloc, texts, flaws)?;
    let defects = read_defects_with(alloc, texts, flaws, items.as_slice())?;
    let params = read_params_with(alloc, texts, flaws, items.as_slice(), defects.as_slice())?;
    let widths = read_widths_with(
        alloc,
        texts,
        flaws,
        items.as_slice(),
        defects.as_slice(),
        &params,
    )?;
    match Instance::on_plates(alloc, params, items, defects, widths) {
        Ok(instance) => Ok(instance),
        Err(reason) => Err(stop_at(alloc, lists_refusal(reason))),
    }
}
