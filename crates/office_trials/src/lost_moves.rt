//! A migration over a disk whose syncs that fail drop what they were to bring to the device: the
//! gate that a migration opens at the end may read open, and be closed on the device.

ghost use Rattle.form_model.specs.Validity.{IsPlanFor};

use crate::equal::expect_equal;
use crate::expected::{expect_entries, expect_parts};
use crate::files::{BEST, END, Parts, REST, SERVE, START, joined};
use crate::lossy_disk::LossyDisk;
use crate::moves::done;
use crate::old_files::{MOVED, OLD_HEADER, OLD_SERVED, OLD_START};
use crate::outcome::{Trial, WORKED, draft, run};
use bank_tables::Bank;
use constraint_model::Spec;
use exam_office::{MigrateFault, migrate};
use form_model::Draft;
use std::alloc::Global;
use std::process::Abort;
use trial_cases::bank_a;

/// The moved journal where the gate before the mark is closed.
const UNOPENED: Parts<'static> = &[
    OLD_HEADER,
    OLD_START,
    REST,
    SERVE,
    REST,
    BEST,
    &[0, 0, 0, 0, 1, 8],
    START,
    REST,
    SERVE,
    REST,
    BEST,
    END,
];

/// The last sync of a migration fails.
fn half_moved<R: Abort>(rt: &R, alloc: Global, bank: &Bank, spec: &Spec) -> LossyDisk
    requires { IsPlanFor bank.now spec.now }
{
    let file = joined(rt, alloc, OLD_SERVED);
    let device = joined(rt, alloc, OLD_SERVED);
    let fails = [27u64].to_vec(alloc).expect(rt, "numbers");
    match migrate(alloc, bank, spec, LossyDisk::of(alloc, file, device, fails)) {
        Ok(_) => panic!(rt; "moved"),
        Err((disk, fault)) => {
            expect_equal(rt, &fault, &MigrateFault::Disk);
            disk
        }
    }
}

/// The file reads moved, and is not on the device.
fn expect_half_moved<R: Abort>(rt: &R, alloc: Global, disk: &LossyDisk) {
    expect_parts(rt, alloc, &disk.shown, MOVED);
    expect_parts(rt, alloc, &disk.device, UNOPENED);
}

/// A second migration on the same disk.
fn device_moved<R: Abort>(rt: &R, alloc: Global, bank: &Bank, spec: &Spec) -> Vec<u8>
    requires { IsPlanFor bank.now spec.now }
{
    let disk = half_moved(rt, alloc, bank, spec);
    expect_half_moved(rt, alloc, &disk);
    match migrate(alloc, bank, spec, disk) {
        Ok((moved, disk)) => {
            expect_equal(rt, &Ok(moved), &done(0, 364));
            disk.device
        }
        Err(_) => panic!(rt; "not moved"),
    }
}

fn device_by<R: Abort>(rt: &R, alloc: Global, bank: &Bank, draft: Draft) -> Vec<u8> {
    match Spec::of(alloc, bank, draft) {
        Ok(spec) => device_moved(rt, alloc, bank, &spec),
        Err(_) => panic!(rt; "no plan"),
    }
}

/// What the last sync of a migration has dropped is on the device after a second one, which changes
/// nothing that is read.
#[test]
fn a_migration_whose_last_sync_fails(rt: HostRuntime) {
    let alloc = rt.alloc();
    let bank = bank_a(alloc).expect(&rt, "a bank");
    let device = device_by(&rt, alloc, &bank, draft(&rt, alloc, &WORKED));
    expect_parts(&rt, alloc, &device, MOVED);
    let trial = Trial {
        numbers: WORKED,
        file: &[&device],
        fails: &[],
        steps: &[],
    };
    expect_entries(&rt, &run(&rt, alloc, &trial), 2);
}
