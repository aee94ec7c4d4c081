//! Why a file failed.

use crate::file::FileCause;
use std::alloc::{AllocError, Global};
use std::io;
use std::sync::Arc;
use std::sync::atomic::{AtomicI32, Ordering};

/// No call has failed yet. Reasons of the system are positive.
const NONE: i32 = 0;

const NOT_REGULAR: i32 = -1;

const REMOVED: i32 = -2;

const UNNAMED: i32 = -3;

const RESIZED: i32 = -4;

const MOVED: i32 = -5;

const UNKNOWN: i32 = -6;

/// A shared slot for the cause of a file's first failure: the file stores the cause, and whoever reports the failure
/// reads it. The error [`Failed`](ps_device::Failed) itself has no cause.
///
/// No contract says which cause the slot holds.
#[derive(Drop)]
pub struct FailureReason {
    first: Arc<AtomicI32>,
}

impl FailureReason {
    /// Creates an empty slot, for a file that hasn't failed. Fails when out of memory.
    pub fn new(alloc: Global) -> Result<FailureReason, AllocError> {
        Ok(FailureReason {
            first: Arc::new(alloc, AtomicI32::new(NONE))?,
        })
    }

    /// Returns another handle of the same slot. Fails only if the slot already has as many handles as can be counted.
    pub fn share(&self) -> Result<FailureReason, AllocError> {
        Ok(FailureReason {
            first: Arc::clone(&self.first)?,
        })
    }

    /// Stores why a call failed, unless the cause of an earlier failure is stored already.
    pub fn note(&self, cause: FileCause) {
        let code = match cause {
            FileCause::System(code) if code > NONE => code,
            FileCause::NotRegular => NOT_REGULAR,
            FileCause::Removed => REMOVED,
            FileCause::Unnamed => UNNAMED,
            FileCause::Resized => RESIZED,
            FileCause::Moved => MOVED,
            FileCause::System(_) | FileCause::Unknown => UNKNOWN,
        };
        let _ = self
            .first
            .compare_exchange(NONE, code, Ordering::SeqCst, Ordering::SeqCst);
    }

    /// Stores the cause for a system call's `error`, as [`FailureReason::note`] does.
    pub fn note_error(&self, error: &io::Error) {
        self.note(FileCause::of(error));
    }

    /// Returns the cause of the first failure, or `None` if no call has failed.
    pub fn cause(&self) -> Option<FileCause> {
        match self.first.load(Ordering::SeqCst) {
            NONE => None,
            NOT_REGULAR => Some(FileCause::NotRegular),
            REMOVED => Some(FileCause::Removed),
            UNNAMED => Some(FileCause::Unnamed),
            RESIZED => Some(FileCause::Resized),
            MOVED => Some(FileCause::Moved),
            code if code > NONE => Some(FileCause::System(code)),
            _ => Some(FileCause::Unknown),
        }
    }
}
