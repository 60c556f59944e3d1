//! `pfx migrate OLD NEW`.

use crate::files::{fault_of, new_disk, shared_disk, sync_directory};
use crate::process::Process;
use crate::store::taken_away;
use pfx_disk::FileDisk;
use pfx_fault::Fault;
use pfx_kinds::any::AnyJob;
use pfx_program::{OutputForm, object_line};
use pfx_store_engine::faults::{init_fault, open_fault};
use pfx_store_migrate::{MigrateFault, migrate, migrated_object, migrated_text};
use std::alloc::{AllocError, Global};
use std::io::Write;

// The line of a store that begins at the state of this number.
fn line_of(alloc: Global, form: OutputForm, number: u64) -> Result<String, AllocError> {
    match form {
        OutputForm::Text => migrated_text(alloc, number),
        OutputForm::Json => {
            let object = migrated_object(alloc, number)?;
            object_line(alloc, &object)
        }
    }
}

// Makes the store in a new file, and answers the number of its last command.
fn made(process: Process<'_>, old: FileDisk, new: &str) -> Result<u64, Fault> {
    let (disk, is_new) = new_disk(process.rt, new, &process.traces.unopened)?;
    match migrate::<FileDisk, FileDisk, AnyJob>(process.alloc, old, disk) {
        Ok((store, _old)) => {
            if let Err(fault) = sync_directory(process.rt, new, &process.traces.device) {
                process
                    .traces
                    .unmade
                    .set(taken_away(process.rt, new, is_new, 0));
                return Err(fault);
            }
            Ok(store.state().number())
        }
        Err((MigrateFault::Old(fault), old, _disk)) => {
            process.traces.keep_said(&old);
            let _ = taken_away(process.rt, new, is_new, 0);
            Err(open_fault(fault))
        }
        Err((MigrateFault::New(fault), _old, disk)) => {
            process.traces.keep_said(&disk);
            process
                .traces
                .unmade
                .set(taken_away(process.rt, new, is_new, 0));
            Err(init_fault(fault))
        }
    }
}

/// Makes a store of this version in a file, which is made if it is missing, out of one of version 1, which is only read, and prints the
/// number of its last command. The new file's directory is synced before the line is printed. A new file is taken away if no store is
/// made in it.
pub(crate) fn migrate_store(
    process: Process<'_>,
    old: &str,
    new: &str,
    form: OutputForm,
) -> Result<(), Fault> {
    let number = made(process, shared_disk(process.rt, old)?, new)?;
    let Ok(line) = line_of(process.alloc, form, number) else {
        return Err(Fault::NoMemory);
    };
    match process.output().write_all(line.as_bytes()) {
        Ok(()) => Ok(()),
        Err(error) => Err(fault_of(&error, Fault::OutputFailed)),
    }
}
