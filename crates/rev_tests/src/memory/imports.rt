//! Logs that become a script in a heap of which only so many bytes are left.
use crate::imports::{ALL, LOG, SCRIPT, setup};
use crate::memory::heap::{Trial, fill, refuse_in_turn};
use linked_list_allocator::LocalHeap;
use rev_choices::Rhythm;
use rev_intake::fault::IntakeFault;
use rev_intake::intake::Intake;
use rev_output::ToWrite;
use rev_script::source::FromRead;
use rev_watch::reader::LogReader;
use std::alloc::Global;
use std::process::Abort;

// Makes the script of the log, with all that the intake keeps in the heap.
fn make(rt: &impl Abort, heap: &LocalHeap, script: &mut Vec<u8>) -> Result<(), IntakeFault> {
    let mut intake = Intake::open(heap, setup(rt), Rhythm::Lean, ALL, None)?;
    let mut log = LogReader::over(FromRead::new(LOG));
    let mut sink = ToWrite::new(script);
    let mut done = intake.take_log(&mut log, &mut sink);
    if done.is_ok() {
        done = intake.finish(&mut sink);
    }
    drop(intake);
    done
}

struct Making;

impl Trial for Making {
    fn attempt<R: Abort>(&self, rt: &R, alloc: Global, heap: &LocalHeap, left: usize) -> bool {
        let mut script: Vec<u8> = Vec::new(alloc);
        let ballast = fill(rt, alloc, heap, left);
        let made = make(rt, heap, &mut script);
        drop(ballast);
        match made {
            Ok(()) => {
                assert!(rt; script.as_slice() == SCRIPT);
                true
            }
            Err(fault) => {
                assert!(rt;
                    fault == IntakeFault::Memory && script.is_empty(),
                    "{left}: {fault}"
                );
                false
            }
        }
    }
}

#[test]
fn script_of_a_log(rt: HostRuntime) {
    refuse_in_turn(&rt, rt.alloc(), "a script of a log", &Making);
}
