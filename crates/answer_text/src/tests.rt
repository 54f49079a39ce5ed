ghost use Rattle.std.specs.Prelude.{◌≡◌, length, IfOk};
ghost use Rattle.graph_core.specs.Graphs.{IsJob};
ghost use Rattle.graph_core.specs.Parts.{place_count};
ghost use Rattle.graph_core.specs.Fragments.{fragment_of};
ghost use Rattle.answer_text.specs.Worked.{scattered};

use crate::{Answer, AnswerRow, Kind, assemble, summary, write_answer, write_summary};
use grape_port::{Failed, MemSink, NoMemory};
use graph_core::{Cut, FAR, Fragment, FragmentParts, Graph, Job, Policy, Query, Rows, Settings};
use pie_core::Local;
use std::alloc::Global;
use std::test::Fail;

fn answer_of(alloc: Global, kind: Kind, values: &[u64]) -> Result<Answer, NoMemory> {
    let mut rows = Vec::new(alloc);
    let mut id = 0;
    for value in values {
        id = u32::wrapping_add(id, 1);
        rows.push(AnswerRow { id, value: *value })?;
    }
    Ok(Answer { kind, rows })
}

#[test]
fn each_kind_has_its_words(rt: HostRuntime) -> Result<(), Fail> {
    let every_bit =
        "answer sim 3\n1 0,2\n2 -\n3 0,1,2,3,4,5,6,7,8,9,10,11,12,13,14,15,16,17,18,19,20,21,22,\
        23,24,25,26,27,28,29,30,31,32,33,34,35,36,37,38,39,40,41,42,43,44,45,46,47,48,49,50,51,52,53,54,55,56,57,\
        58,59,60,61,62,63\nend\n";
    let table: [(Kind, &[u64], &str); 5] = [
        (
            Kind::Dist,
            &[0, 5, 6],
            "answer dist 3\n1 0\n2 5\n3 6\nend\n",
        ),
        (
            Kind::Dist,
            &[FAR, FAR - 1],
            "answer dist 2\n1 far\n2 4503599627370495\nend\n",
        ),
        (
            Kind::Label,
            &[u64::MAX],
            "answer label 1\n1 18446744073709551615\nend\n",
        ),
        (Kind::Reach, &[0, 1], "answer reach 2\n1 yes\n2 no\nend\n"),
        (Kind::Sim, &[5, 0, u64::MAX], every_bit),
    ];
    for (kind, values, text) in table {
        let answer = answer_of(rt.alloc(), kind, values)?;
        let mut sink = MemSink::new(rt.alloc(), 300, 7, Vec::new(rt.alloc()))?;
        assert_eq!(rt; write_answer(&answer, &mut sink), Ok(()));
        assert_eq!(rt; sink.bytes(), text.as_bytes());
    }
    Ok(())
}

// 900 rows of the value 7: 17 bytes, 9 of 4 bytes, 90 of 5, 801 of 6, and 4.
#[test]
fn a_long_answer_goes_in_pieces(rt: HostRuntime) -> Result<(), Fail> {
    let answer = answer_of(rt.alloc(), Kind::Label, &[7; 900])?;
    let mut sink = MemSink::new(rt.alloc(), 6000, 7, Vec::new(rt.alloc()))?;
    assert_eq!(rt; write_answer(&answer, &mut sink), Ok(()));
    assert_eq!(rt; sink.bytes().len(), 17 + 36 + 450 + 4806 + 4);
    assert!(rt; sink.bytes().starts_with(b"answer label 900\n1 7\n2 7\n"));
    assert!(rt; sink.bytes().ends_with(b"\n899 7\n900 7\nend\n"));
    Ok(())
}

#[test]
fn a_failed_write_leaves_a_front(rt: HostRuntime) -> Result<(), Fail> {
    let answer = answer_of(rt.alloc(), Kind::Dist, &[0, 5, 6])?;
    for (failing, front) in [(3, "answer d"), (9, "answer dist 3\n1 0\n2 5\n3 6\nend\n")] {
        let fails = Vec::from_slice(rt.alloc(), &[failing])?;
        let mut sink = MemSink::new(rt.alloc(), 30, 4, fails)?;
        assert_eq!(rt; write_answer(&answer, &mut sink), Err(Failed));
        assert_eq!(rt; sink.bytes(), front.as_bytes());
    }
    Ok(())
}

/// Vertices 1, 2 and 3 without edges, in two fragments by hash.
fn scattered(alloc: Global) -> Result<Job, NoMemory>
    ensures same { IfOk result (λ job. job ≡ scattered) }
    ensures job { IfOk result IsJob }
{
    let settings = Settings {
        fragments: 2,
        lanes: 1,
        cut: Cut::Hash,
        policy: Policy::Ap,
        snapshot: 0,
    };
    Ok(Job {
        graph: Graph::build(alloc, &[(1, 0), (2, 0), (3, 0)], &[])?,
        query: Query::Label,
        settings,
    })
}

/// The fragment with vertex 2.
fn first_part(alloc: Global) -> Result<Fragment, NoMemory>
    ensures { IfOk result (λ part. part ≡ fragment_of scattered 0) }
{
    Ok(Fragment::from_parts(FragmentParts {
        number: 0,
        owned: vec![in alloc; 1]?,
        mirrors: Vec::new(alloc),
        readings: Rows::from_offsets(Vec::new(alloc), vec![in alloc; 0, 0]?),
        readers: Rows::from_offsets(Vec::new(alloc), vec![in alloc; 0, 0]?),
        routes: Rows::from_offsets(Vec::new(alloc), vec![in alloc; 0, 0]?),
    }))
}

/// The fragment with vertices 1 and 3.
fn second_part(alloc: Global) -> Result<Fragment, NoMemory>
    ensures { IfOk result (λ part. part ≡ fragment_of scattered 1) }
{
    Ok(Fragment::from_parts(FragmentParts {
        number: 1,
        owned: vec![in alloc; 0, 2]?,
        mirrors: Vec::new(alloc),
        readings: Rows::from_offsets(Vec::new(alloc), vec![in alloc; 0, 0, 0]?),
        readers: Rows::from_offsets(Vec::new(alloc), vec![in alloc; 0, 0, 0]?),
        routes: Rows::from_offsets(Vec::new(alloc), vec![in alloc; 0, 0, 0]?),
    }))
}

fn local_with(alloc: Global, part: &Fragment, values: &[u64]) -> Result<Local, NoMemory>
    requires { length values.now ≡ place_count part.now }
    ensures { IfOk result (λ local. length local.values ≡ place_count part.now) }
{
    let mut local = Local::new(alloc, part, 0)?;
    local.load(values);
    Ok(local)
}

#[test]
fn an_owner_gives_the_value_of_its_vertex(rt: HostRuntime) -> Result<(), Fail> {
    let job = scattered(rt.alloc())?;
    let fragments = [first_part(rt.alloc())?, second_part(rt.alloc())?];
    let first = local_with(rt.alloc(), &fragments[0], &[5])?;
    let second = local_with(rt.alloc(), &fragments[1], &[7, 9])?;
    let answer = assemble(rt.alloc(), &job, &fragments, &[first, second])?;
    let rows = [(1, 7), (2, 5), (3, 9)].map(|(id, value)| AnswerRow { id, value });
    assert_eq!(rt; answer.kind, Kind::Label);
    assert_eq!(rt; answer.rows.as_slice(), rows.as_slice());
    Ok(())
}

#[test]
fn totals_have_a_line(rt: HostRuntime) -> Result<(), Fail> {
    let row = |id: u32, value: u64| AnswerRow { id, value };
    let rows = vec![in rt.alloc(); row(1, u64::MAX), row(2, FAR), row(3, 7)]?;
    let totals = summary(&Answer {
        kind: Kind::Dist,
        rows,
    });
    let mut sink = MemSink::new(rt.alloc(), 100, 7, Vec::new(rt.alloc()))?;
    assert_eq!(rt; write_summary(&totals, &mut sink), Ok(()));
    // 2^64 - 1 and 7 together
    let line = "summary dist 3 reached 2 sum 18446744073709551622 greatest 18446744073709551615\n";
    assert_eq!(rt; sink.bytes(), line.as_bytes());
    Ok(())
}

#[test]
fn a_failed_write_leaves_a_front_of_the_line(rt: HostRuntime) -> Result<(), Fail> {
    let totals = summary(&Answer {
        kind: Kind::Dist,
        rows: Vec::new(rt.alloc()),
    });
    let fails = Vec::from_slice(rt.alloc(), &[3])?;
    let mut sink = MemSink::new(rt.alloc(), 60, 4, fails)?;
    assert_eq!(rt; write_summary(&totals, &mut sink), Err(Failed));
    assert_eq!(rt; sink.bytes(), b"summary ".as_slice());
    Ok(())
}
