use cut_model::{Broken, Rule, Verdict};
use glass_base::{Defect, Instance, Item, Params, Run};
use plan_csv::read_plan;
use plan_picture::picture;
use std::alloc::Global;
use std::test::Fail;

const ITEMS: [Item; 2] = [
    Item {
        id: 12,
        length: 500,
        width: 300,
        stack: 9,
        sequence: 1,
    },
    Item {
        id: 3,
        length: 400,
        width: 600,
        stack: 5,
        sequence: 1,
    },
];

/// One on the plate, one over its corner, one beside it, and one on another plate.
const DEFECTS: [Defect; 4] = [
    Defect {
        plate: 0,
        x0: 700,
        y0: 100,
        x1: 705,
        y1: 104,
    },
    Defect {
        plate: 0,
        x0: 5990,
        y0: 3200,
        x1: 6010,
        y1: 3230,
    },
    Defect {
        plate: 0,
        x0: 6000,
        y0: 100,
        x1: 6010,
        y1: 110,
    },
    Defect {
        plate: 1,
        x0: 10,
        y0: 10,
        x1: 20,
        y1: 20,
    },
];

/// The instance of two items and four defects on the challenge's plates.
fn instance(alloc: Global) -> Result<Instance, Fail> {
    let mut items = Run::new(alloc);
    items.extend_from_slice(&ITEMS)?;
    let mut defects = Run::new(alloc);
    defects.extend_from_slice(&DEFECTS)?;
    Ok(Instance::new(alloc, Params::usual(), items, defects)?)
}

/// A strip of 600 with two bands and a waste over them: in the lower band item 12 beside a waste, in the other one item 3, turned.
const PLAN: &str = "PLATE_ID;NODE_ID;X;Y;WIDTH;HEIGHT;TYPE;CUT;PARENT
0;0;0;0;6000;3210;-2;0;
0;1;0;0;600;3210;-2;1;0
0;2;0;0;600;300;-2;2;1
0;3;0;0;500;300;12;3;2
0;4;500;0;100;300;-1;3;2
0;5;0;300;600;400;3;2;1
0;6;0;700;600;2510;-1;2;1
0;7;600;0;5400;3210;-3;1;0
";

/// The group of the plate: its rows, the cuts between them and the defects as far as they lie on it. The size of the text is 108, so the plate's
/// corner is at 2 times 108 and 6 times 108 and 3210.
const GROUP: &str = "<g id=\"plate0\" transform=\"translate(216 3858) scale(1 -1)\">
<g><title>branch, 6000 x 3210, node 0</title><rect class=\"branch cut0\" x=\"0\" y=\"0\" width=\"6000\" height=\"3210\"/></g>
<g><title>branch, 600 x 3210, node 1</title><rect class=\"branch cut1\" x=\"0\" y=\"0\" width=\"600\" height=\"3210\"/></g>
<g><title>branch, 600 x 300, node 2</title><rect class=\"branch cut2\" x=\"0\" y=\"0\" width=\"600\" height=\"300\"/></g>
<g><title>item 12, 500 x 300, node 3</title><rect class=\"item s0 cut3\" x=\"0\" y=\"0\" width=\"500\" height=\"300\"/></g>
<g><title>waste, 100 x 300, node 4</title><rect class=\"waste cut3\" x=\"500\" y=\"0\" width=\"100\" height=\"300\"/></g>
<g><title>item 3, 600 x 400, node 5</title><rect class=\"item s1 cut2\" x=\"0\" y=\"300\" width=\"600\" height=\"400\"/></g>
<g><title>waste, 600 x 2510, node 6</title><rect class=\"waste cut2\" x=\"0\" y=\"700\" width=\"600\" height=\"2510\"/></g>
<g><title>residual, 5400 x 3210, node 7</title><rect class=\"residual cut1\" x=\"600\" y=\"0\" width=\"5400\" height=\"3210\"/></g>
<line class=\"cut3\" x1=\"500\" y1=\"0\" x2=\"500\" y2=\"300\"/>
<line class=\"cut2\" x1=\"0\" y1=\"300\" x2=\"600\" y2=\"300\"/>
<line class=\"cut2\" x1=\"0\" y1=\"700\" x2=\"600\" y2=\"700\"/>
<line class=\"cut1\" x1=\"600\" y1=\"0\" x2=\"600\" y2=\"3210\"/>
<rect class=\"defect\" x=\"700\" y=\"100\" width=\"5\" height=\"4\"/>
<rect class=\"defect\" x=\"5990\" y=\"3200\" width=\"10\" height=\"10\"/>
</g>
";

/// Whether the picture of the plan has each of these parts.
fn has(alloc: Global, verdict: &Verdict, parts: &[&str]) -> Result<bool, Fail> {
    let instance = instance(alloc)?;
    let plan = read_plan(alloc, &instance, PLAN.as_bytes())?;
    let text = picture(alloc, &instance, &plan, verdict)?;
    let text = std::str::from_utf8(text.as_slice())?;
    Ok(parts.iter().all(|part| text.contains(*part)))
}

#[test]
fn a_lawful_plan_is_drawn(rt: HostRuntime) -> Result<(), Fail> {
    let parts = [
        "<svg xmlns=\"http://www.w3.org/2000/svg\" role=\"img\" viewBox=\"0 0 6480 3996\" font-size=\"108\">\n",
        GROUP,
        ">plate 0: 6000 x 3210 mm</text>\n",
        ">3 T</text>\n",
        ">600 x 400</text>\n",
        ">loss 1536000 mm&#178;, 79.8 % of the glass used</text>\n",
        ">plates 1, items 2</text>\n",
    ];
    assert!(rt; has(rt.alloc(), &Verdict::Lawful(1_536_000), &parts)?);
    Ok(())
}

#[test]
fn a_breach_is_shown(rt: HostRuntime) -> Result<(), Fail> {
    let broken = Broken {
        rule: Rule::L8,
        plate: 0,
        node: 5,
        left: 300,
        right: 0,
    };
    let parts = [
        ">unlawful L8 plate 0 node 5 300 0</text>\n",
        ">the cut before the piece runs through a defect</text>\n",
        "<rect class=\"broken\" x=\"0\" y=\"300\" width=\"600\" height=\"400\"/>\n",
        "<circle class=\"ring\" cx=\"702\" cy=\"102\" r=\"1em\"/>\n",
    ];
    assert!(rt; has(rt.alloc(), &Verdict::Broken(broken), &parts)?);
    Ok(())
}
