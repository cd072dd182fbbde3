//! Calls of an office over a disk whose syncs that fail drop what they were to bring to the device;
//! then a crash, and an opening. What was acknowledged is on the device.

ghost use Rattle.bank_tables.specs.Items.{has};
ghost use Rattle.form_model.specs.Forms.{Meets};
ghost use Rattle.form_model.specs.Validity.{IsPlanFor};

use crate::equal::expect_equal;
use crate::expected::expect_entries;
use crate::files::{Parts, SERVED, joined};
use crate::lossy_disk::LossyDisk;
use crate::old_files::OLD_SERVED;
use crate::outcome::{Call, FAILED, Trial, WORKED, ask, draft, run};
use bank_tables::{Bank, ItemSet};
use constraint_model::Spec;
use exam_office::{Office, OpenFault, migrate};
use form_model::Draft;
use std::alloc::Global;
use std::process::Abort;
use trial_cases::bank_a;

/// Calls over a file, each of which adds an entry; how many entries the history has then; and which
/// calls of the disk fail. After a call of the office that failed, the office goes on, or its
/// process dies and it is opened again on the disk.
#[derive(Clone, Copy)]
struct Losing<'a> {
    file: Parts<'a>,
    calls: &'a [Call],
    entries: u64,
    fails: &'a [u64],
    dies: bool,
}

/// The disk once its journal was moved, where it was refused for its version.
fn moved_if_old(
    alloc: Global,
    bank: &Bank,
    spec: &Spec,
    disk: LossyDisk,
    fault: OpenFault,
) -> LossyDisk
    requires { IsPlanFor bank.now spec.now }
{
    if fault != OpenFault::Version {
        return disk;
    }
    match migrate(alloc, bank, spec, disk) {
        Ok((_, disk)) => disk,
        Err((disk, _)) => disk,
    }
}

/// The office on a disk, once its journal was moved. Opening and moving fail at most twice in all.
fn opened<'a, R: Abort>(
    rt: &R,
    alloc: Global,
    bank: &'a Bank,
    spec: &'a Spec,
    base: ItemSet,
    disk: LossyDisk,
) -> Office<'a, LossyDisk>
    requires plan { IsPlanFor bank.now spec.now }
    requires base { Meets bank.now spec.now (has base) }
{
    let mut disk = disk;
    for _ in 0..5u8 {
        match Office::open(alloc, bank, spec, base, disk) {
            Ok(office) => return office,
            Err((back, fault)) => disk = moved_if_old(alloc, bank, spec, back, fault),
        }
    }
    panic!(rt; "not opened")
}

/// A call of the office is made until the disk fails no more.
fn asked<'a, R: Abort>(
    rt: &R,
    alloc: Global,
    bank: &'a Bank,
    spec: &'a Spec,
    base: ItemSet,
    office: Office<'a, LossyDisk>,
    call: &Call,
    dies: bool,
) -> Office<'a, LossyDisk>
    requires plan { IsPlanFor bank.now spec.now }
    requires base { Meets bank.now spec.now (has base) }
{
    let mut office = office;
    for _ in 0..3u8 {
        if ask(rt, alloc, &mut office, call) != FAILED {
            return office;
        }
        if dies {
            office = opened(rt, alloc, bank, spec, base, office.into_disk());
        }
    }
    panic!(rt; "not asked")
}

/// What is on the device once all calls were made. Each is in the history then.
fn device_after<R: Abort>(
    rt: &R,
    alloc: Global,
    bank: &Bank,
    spec: &Spec,
    losing: &Losing<'_>,
) -> Vec<u8>
    requires { IsPlanFor bank.now spec.now }
{
    let Some(base) = spec.base() else {
        panic!(rt; "no base");
    };
    let file = joined(rt, alloc, losing.file);
    let device = file.to_vec(alloc).expect(rt, "a device");
    let fails = losing.fails.to_vec(alloc).expect(rt, "numbers");
    let disk = LossyDisk::of(alloc, file, device, fails);
    let mut office = opened(rt, alloc, bank, spec, base, disk);
    for call in losing.calls {
        office = asked(rt, alloc, bank, spec, base, office, call, losing.dies);
    }
    expect_equal(rt, &office.summary().entries, &losing.entries);
    let disk = office.into_disk();
    disk.device
}

fn device_by<R: Abort>(
    rt: &R,
    alloc: Global,
    bank: &Bank,
    draft: Draft,
    losing: &Losing<'_>,
) -> Vec<u8> {
    match Spec::of(alloc, bank, draft) {
        Ok(spec) => device_after(rt, alloc, bank, &spec, losing),
        Err(_) => panic!(rt; "no plan"),
    }
}

/// After a crash the file on the device has each entry.
fn expect_nothing_lost<R: Abort>(rt: &R, alloc: Global, losing: &Losing<'_>) {
    let bank = bank_a(alloc).expect(rt, "a bank");
    let device = device_by(rt, alloc, &bank, draft(rt, alloc, &WORKED), losing);
    let trial = Trial {
        numbers: WORKED,
        file: &[&device],
        fails: &[],
        steps: &[],
    };
    expect_entries(rt, &run(rt, alloc, &trial), losing.entries);
}

/// Two calls of the disk fail, the second at most six calls after the first; or one alone.
fn expect_nothing_lost_from<R: Abort>(rt: &R, alloc: Global, losing: &Losing<'_>, first: u64) {
    for second in first..first.saturating_add(7) {
        for dies in [false, true] {
            let fails = [first, second];
            expect_nothing_lost(
                rt,
                alloc,
                &Losing {
                    fails: &fails,
                    dies,
                    ..*losing
                },
            );
        }
    }
}

/// A new journal is opened by six calls of the disk, and each entry is four.
#[test]
fn what_a_new_journal_acknowledged_is_on_the_device(rt: HostRuntime) {
    let losing = Losing {
        file: &[],
        calls: &[Call::Begin(70), Call::Close(0)],
        entries: 2,
        fails: &[],
        dies: false,
    };
    for first in 0..14u64 {
        expect_nothing_lost_from(&rt, rt.alloc(), &losing, first);
    }
}

/// The journal of the served session is opened by eighteen.
#[test]
fn what_is_acknowledged_after_a_lost_sync_is_on_the_device(rt: HostRuntime) {
    let losing = Losing {
        file: SERVED,
        calls: &[Call::Answer(0, 0, 1), Call::Begin(71)],
        entries: 4,
        fails: &[],
        dies: false,
    };
    for first in 0..26u64 {
        expect_nothing_lost_from(&rt, rt.alloc(), &losing, first);
    }
}

/// A journal of the first version is refused by seven calls, moved by 28 and opened by 24. The last
/// sync of moving is call 34: where it fails, the office is opened at once, since the file reads
/// moved. The first call that fails is one of moving or of opening then.
#[test]
fn what_is_acknowledged_after_a_migration_is_on_the_device(rt: HostRuntime) {
    let losing = Losing {
        file: OLD_SERVED,
        calls: &[Call::Answer(0, 0, 1)],
        entries: 3,
        fails: &[],
        dies: false,
    };
    for first in 7..59u64 {
        expect_nothing_lost_from(&rt, rt.alloc(), &losing, first);
    }
}
