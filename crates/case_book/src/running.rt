//! Runs of the programs over files and a sink in memory, and in what they differ from their cases.

use crate::book::{Case, NamedText, Program};
use crate::comparing::{Mismatch, mismatch_of};
use crate::expanding::{bytes_of, told_of};
use glass_base::Run;
use glass_io::{MemFiles, MemSink};
use glass_run::{OpenGate, Status, glass};
use picture_run::glass_picture;
use std::alloc::{AllocError, Global};
use std::collections::BTreeMap;
use std::mem;
use std::sync::Wait;
use std::thread::Threads;

/// Something in which a run differs from its case.
#[derive(Drop)]
pub enum Difference {
    /// The first case of the chain printed no line that begins with this word, which stands in braces.
    Untold { word: String },
    /// The run ends otherwise.
    Status { wanted: Vec<Status>, found: Status },
    /// Something else is printed.
    Printed(Mismatch),
    /// A file has another text.
    File { name: String, mismatch: Mismatch },
    /// There is no file of a name.
    Missing { name: String },
    /// There is a file that is neither stored by the case nor was there before.
    Unexpected { name: String },
    /// The sink was written to more than once.
    Writes { calls: u64 },
}

/// What a case and those that follow it have left so far.
#[derive(Drop)]
pub struct Chain {
    /// The files after the last run.
    files: BTreeMap<String, Run<u8>>,
    /// What the first case printed.
    printed: Run<u8>,
}

/// How a run ended, and what it left.
#[derive(Drop)]
struct End {
    status: Status,
    files: MemFiles,
    sink: MemSink,
}

/// Puts texts under their names, in a chain whose first case printed this.
fn put_texts(
    alloc: Global,
    files: &mut BTreeMap<String, Run<u8>>,
    texts: &[NamedText],
    printed: &[u8],
) -> Result<(), AllocError> {
    for named in texts {
        let bytes = Run::from(bytes_of(alloc, &named.text, printed)?);
        files.insert(named.name.clone()?, bytes)?;
    }
    Ok(())
}

impl Chain {
    /// A chain without a case.
    pub fn new(alloc: Global) -> Chain {
        Chain {
            files: BTreeMap::new(alloc),
            printed: Run::new(alloc),
        }
    }

    /// Takes the files before the run of the next case out of the chain.
    fn take_files(
        &mut self,
        alloc: Global,
        case: &Case,
    ) -> Result<BTreeMap<String, Run<u8>>, AllocError> {
        let mut files = mem::replace(&mut self.files, BTreeMap::new(alloc));
        put_texts(
            alloc,
            &mut files,
            case.files.as_slice(),
            self.printed.as_slice(),
        )?;
        Ok(files)
    }

    /// Keeps what the run of a case left.
    fn keep(&mut self, case: &Case, end: End) {
        let End { files, sink, .. } = end;
        let MemFiles { files, .. } = files;
        self.files = files;
        if !case.heading.follows {
            let MemSink { bytes, .. } = sink;
            self.printed = bytes;
        }
    }
}

/// A copy of files.
fn copied(
    alloc: Global,
    files: &BTreeMap<String, Run<u8>>,
) -> Result<BTreeMap<String, Run<u8>>, AllocError> {
    let mut copies = BTreeMap::new(alloc);
    for (name, bytes) in files.iter() {
        let bytes = Run::from(bytes.as_slice().to_vec(alloc)?);
        copies.insert(name.clone()?, bytes)?;
    }
    Ok(copies)
}

/// The files that the run of a case is given, with the calls of them that fail.
fn given_files(
    alloc: Global,
    case: &Case,
    files: &BTreeMap<String, Run<u8>>,
) -> Result<MemFiles, AllocError> {
    Ok(MemFiles {
        alloc,
        files: copied(alloc, files)?,
        fails: Run::from(case.failing_calls.clone()?),
        calls: 0,
        read_faults: [0; 7],
        write_faults: 0,
    })
}

/// The sink of a case before its run.
fn sink_before(alloc: Global, case: &Case) -> Result<MemSink, AllocError> {
    Ok(MemSink {
        bytes: Run::new(alloc),
        fails: Run::from(case.failing_writes.clone()?),
        calls: 0,
        faults: 0,
    })
}

/// Notes the words in braces behind which the first case of the chain printed nothing.
fn note_untold(
    case: &Case,
    printed: &[u8],
    differences: &mut Vec<Difference>,
) -> Result<(), AllocError> {
    for word in &case.told {
        if told_of(printed, word.as_str()).is_none() {
            let word = word.clone()?;
            differences.push(Difference::Untold { word })?;
        }
    }
    Ok(())
}

/// Notes that a run ended otherwise.
fn compare_statuses(
    case: &Case,
    found: Status,
    differences: &mut Vec<Difference>,
) -> Result<(), AllocError> {
    if !case.statuses.contains(&found) {
        let wanted = case.statuses.clone()?;
        differences.push(Difference::Status { wanted, found })?;
    }
    Ok(())
}

/// What of a text is compared with one of this length: no more than that where anything may stand behind it.
fn compared(found: &[u8], length: usize, more: bool) -> &[u8] {
    if more {
        &found[..length.min(found.len())]
    } else {
        found
    }
}

/// Notes that something else was printed, or more than once.
fn compare_printed(
    alloc: Global,
    case: &Case,
    printed: &[u8],
    sink: &MemSink,
    differences: &mut Vec<Difference>,
) -> Result<(), AllocError> {
    let wanted = bytes_of(alloc, &case.printed, printed)?;
    let found = compared(sink.bytes.as_slice(), wanted.len(), case.printed.more);
    if let Some(mismatch) = mismatch_of(alloc, wanted.as_slice(), found)? {
        differences.push(Difference::Printed(mismatch))?;
    }
    if sink.calls > 1 {
        differences.push(Difference::Writes { calls: sink.calls })?;
    }
    Ok(())
}

/// Notes that a file has another text than the one that is wanted, or is not there.
fn compare_file(
    alloc: Global,
    name: &String,
    wanted: &[u8],
    more: bool,
    found: Option<&Run<u8>>,
    differences: &mut Vec<Difference>,
) -> Result<(), AllocError> {
    let name = name.clone()?;
    let Some(found) = found else {
        differences.push(Difference::Missing { name })?;
        return Ok(());
    };
    let found = compared(found.as_slice(), wanted.len(), more);
    if let Some(mismatch) = mismatch_of(alloc, wanted, found)? {
        differences.push(Difference::File { name, mismatch })?;
    }
    Ok(())
}

/// Whether anything may stand behind the text that a case stores under this name.
fn may_go_on(case: &Case, name: &str) -> bool {
    case.stored
        .iter()
        .any(|stored| stored.text.more && stored.name.as_str() == name)
}

/// Notes in what the files differ from those that are to be there.
fn compare_files(
    alloc: Global,
    case: &Case,
    wanted: &BTreeMap<String, Run<u8>>,
    found: &BTreeMap<String, Run<u8>>,
    differences: &mut Vec<Difference>,
) -> Result<(), AllocError> {
    for (name, bytes) in wanted.iter() {
        let found = found.get(name.as_str());
        let more = may_go_on(case, name.as_str());
        compare_file(alloc, name, bytes.as_slice(), more, found, differences)?;
    }
    Ok(())
}

/// Notes the files that are there and should not be.
fn note_unexpected(
    wanted: &BTreeMap<String, Run<u8>>,
    found: &BTreeMap<String, Run<u8>>,
    differences: &mut Vec<Difference>,
) -> Result<(), AllocError> {
    for name in found.keys() {
        if !wanted.contains_key(name.as_str()) {
            let name = name.clone()?;
            differences.push(Difference::Unexpected { name })?;
        }
    }
    Ok(())
}

/// Notes in what the end of a run differs from a case: the words in braces that stand for nothing, its status, what it printed, and
/// the files that it left.
fn compare_end(
    alloc: Global,
    case: &Case,
    printed: &[u8],
    wanted: &BTreeMap<String, Run<u8>>,
    end: &End,
    differences: &mut Vec<Difference>,
) -> Result<(), AllocError> {
    note_untold(case, printed, differences)?;
    compare_statuses(case, end.status, differences)?;
    compare_printed(alloc, case, printed, &end.sink, differences)?;
    compare_files(alloc, case, wanted, &end.files.files, differences)?;
    note_unexpected(wanted, &end.files.files, differences)
}

/// Runs a case on files.
fn end_of<R: Threads + Wait + Sync>(
    rt: &R,
    alloc: Global,
    case: &Case,
    files: &BTreeMap<String, Run<u8>>,
) -> Result<End, AllocError> {
    let mut files = given_files(alloc, case, files)?;
    let mut sink = sink_before(alloc, case)?;
    let words = case.words.as_slice();
    let status = match case.program {
        Program::Glass => glass(rt, alloc, words, &mut files, &mut sink, &OpenGate),
        Program::Picture => glass_picture(alloc, words, &mut files, &mut sink),
    };
    Ok(End {
        status,
        files,
        sink,
    })
}

/// Runs the case behind those of a chain, or the first of another chain, and says in what its run differs from it.
pub fn differences_of<R: Threads + Wait + Sync>(
    rt: &R,
    alloc: Global,
    case: &Case,
    chain: &mut Chain,
) -> Result<Vec<Difference>, AllocError> {
    if !case.heading.follows {
        *chain = Chain::new(alloc);
    }
    let mut files = chain.take_files(alloc, case)?;
    let end = end_of(rt, alloc, case, &files)?;
    let printed = chain.printed.as_slice();
    put_texts(alloc, &mut files, case.stored.as_slice(), printed)?;
    let mut differences = Vec::new(alloc);
    compare_end(alloc, case, printed, &files, &end, &mut differences)?;
    chain.keep(case, end);
    Ok(differences)
}
