//! Cancels: functions that do nothing, whose contracts are the laws.
ghost use Rattle.machine_laws.specs.Cancels.{RunningIsCancelled, CancellingGoesOn, CancellingStays};

/// A cancel of an operation that runs and may be cancelled is accepted: it becomes Cancelling, with the call that takes
/// its deed back still to be handed out, and no row changes.
pub fn a_running_operation_is_cancelled()
    ensures { RunningIsCancelled }
{}

/// Whatever is then reported, the worker gets the call that takes the deed back, and after its report the operation is
/// Cancelled. No row changes.
pub fn a_cancel_takes_back_the_deed()
    ensures { CancellingGoesOn }
{}

/// Nothing else happens to an operation that is being cancelled, whatever other requests and reports come between.
pub fn a_cancel_goes_on()
    ensures { CancellingStays }
{}
