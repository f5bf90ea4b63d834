ghost use Rattle.std.specs.Prelude.{◌≡◌};

use cert_check::{Verdict, Why, check_cert};
use cert_log::{BadCert, read_cert};
use defect_map::DefectMap;
use front_bound::front_search::FrontSearch;
use glass_base::{Instance, Item, Memory, Nobody, Params, Run, append};
use plan_box::Var;
use std::alloc::Global;
use std::test::Fail;
use std::thread::Threads;

/// The instance of one item of 500 by 300, on plates without defects. Its best plan loses 813,000 mm².
fn instance(alloc: Global) -> Result<Instance, Fail> {
    let mut items = Run::new(alloc);
    append(
        &mut items,
        Item {
            id: 0,
            length: 500,
            width: 300,
            stack: 0,
            sequence: 1,
        },
    )?;
    Ok(Instance::new(alloc, Params::usual(), items, Run::new(alloc))?)
}

/// What a check answers to a text, where the best plan that is known loses 813,000 mm²; or how the text is refused.
fn answer<R: Threads + Sync>(
    rt: &R,
    alloc: Global,
    instance: &Instance,
    map: &DefectMap,
    text: &str,
) -> Result<Result<Verdict, BadCert>, Memory>
    requires { map.now ≡ instance.now.defects }
{
    match read_cert(alloc, text.as_bytes()) {
        Ok(cert) => Ok(Ok(check_cert(
            alloc,
            instance,
            map,
            Some(813_000),
            &cert,
            &FrontSearch {
                labels: 1_000_000,
                rt,
                threads: 1,
                listener: &Nobody,
            },
        )?)),
        Err(bad) => Ok(Err(bad)),
    }
}

/// The texts, each with the answer that is right.
const TEXTS: [(&str, Result<Verdict, BadCert>); 20] = [
    (
        "glasscert;1;813000;870;2\nS;0;t\nO\nO\n",
        Ok(Verdict::Accept {
            bound: Some(870),
            left: 2,
        }),
    ),
    (
        "glasscert;1;813000;870;2\nS;0;t\nO\n",
        Err(BadCert::Short(3)),
    ),
    (
        "glasscert;1;813000;870;2\nS;0;t\nO\nO\nO\n",
        Err(BadCert::Trailing(5)),
    ),
    (
        "glasscert;1;812999;870;2\nS;0;t\nO\nO\n",
        Ok(Verdict::Refuse {
            line: 1,
            why: Why::WrongLoss(Some(812_999), Some(813_000)),
        }),
    ),
    (
        "glasscert;1;813000;871;2\nS;0;t\nO\nO\n",
        Ok(Verdict::Refuse {
            line: 1,
            why: Why::WrongBound(Some(871), Some(870)),
        }),
    ),
    (
        "glasscert;1;813000;870;3\nS;0;t\nO\nO\n",
        Ok(Verdict::Refuse {
            line: 1,
            why: Why::WrongOpen(3, 2),
        }),
    ),
    (
        "glasscert;1;813000;870;2\nS;0;a\nO\nO\n",
        Ok(Verdict::Refuse {
            line: 2,
            why: Why::Split(0, Var::A),
        }),
    ),
    (
        "glasscert;1;813000;813000;0\nC\n",
        Ok(Verdict::Refuse {
            line: 2,
            why: Why::NotClosed(870, Some(813_000)),
        }),
    ),
    (
        "glasscert;2;813000;870;2\nS;0;t\nO;2\n",
        Ok(Verdict::Accept {
            bound: Some(870),
            left: 2,
        }),
    ),
    (
        "glasscert;2;813000;870;2\nS;0;t\nO;1\nO;1\n",
        Err(BadCert::Line(4)),
    ),
    (
        "glasscert;2;813000;870;2\nS;0;t\nO;3\n",
        Err(BadCert::Line(3)),
    ),
    (
        "glasscert;2;813000;813000;0\nC;b\n",
        Ok(Verdict::Refuse {
            line: 2,
            why: Why::NotClosed(870, Some(813_000)),
        }),
    ),
    (
        "glasscert;2;813000;813000;0\nC;1\n",
        Ok(Verdict::Refuse {
            line: 2,
            why: Why::WrongCause(1, 0),
        }),
    ),
    ("glasscert;2;813000;813000;0\nC;8\n", Err(BadCert::Line(2))),
    ("glasscert;3;813000;813000;0\nC;b\n", Err(BadCert::Head)),
    (
        "glasscert;3;813000;813000;0;813000\nC;f\n",
        Ok(Verdict::Accept {
            bound: Some(813_000),
            left: 0,
        }),
    ),
    (
        "glasscert;3;813000;813000;0;813001\nC;f\n",
        Ok(Verdict::Refuse {
            line: 1,
            why: Why::WrongFloor(813_001, 813_000),
        }),
    ),
    (
        "glasscert;3;813000;813000;0;812999\nC;f\n",
        Ok(Verdict::Refuse {
            line: 2,
            why: Why::NotClosed(812_999, Some(813_000)),
        }),
    ),
    (
        "glasscert;3;813000;870;2;5000\nS;0;t\nO;2\n",
        Ok(Verdict::Refuse {
            line: 1,
            why: Why::WrongBound(Some(870), Some(5_000)),
        }),
    ),
    ("glasscert;2;813000;813000;0\nC;f\n", Err(BadCert::Line(2))),
];

/// The number of texts that are answered as they should be.
fn right_answers<R: Threads + Sync>(
    rt: &R,
    alloc: Global,
    instance: &Instance,
) -> Result<usize, Memory> {
    let map = DefectMap::new(alloc, instance)?;
    let mut right = 0usize;
    for (text, wanted) in TEXTS {
        if answer(rt, alloc, instance, &map, text)? == wanted {
            right = right.saturating_add(1);
        }
    }
    Ok(right)
}

#[test]
fn certificates_are_read_and_checked(rt: HostRuntime) -> Result<(), Fail> {
    let instance = instance(rt.alloc())?;
    assert_eq!(rt;
        right_answers(&rt, rt.alloc(), &instance)?,
        20,
        "certificates"
    );
    Ok(())
}
