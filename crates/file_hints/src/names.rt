//! The names of submit files.

/// What is known of names.
#[derive(Clone, Copy)]
pub struct CommandNames<'a> {
    /// What dagrun reads.
    pub read: &'a [&'a str],
    /// What HTCondor heeds and dagrun does not, each with what to write instead.
    pub passed_over: &'a [(&'a str, &'a str)],
    /// What means nothing for jobs of one machine.
    pub harmless: &'a [&'a str],
    /// The macros that are always given.
    pub given: &'a [&'a str],
}

static READ: [&str; 8] = [
    "executable",
    "arguments",
    "input",
    "output",
    "error",
    "initialdir",
    "environment",
    "universe",
];

static PASSED_OVER: [(&str, &str); 27] = [
    ("max_retries", "write RETRY in the DAG file"),
    (
        "retry_until",
        "write RETRY with UNLESS-EXIT in the DAG file",
    ),
    (
        "success_exit_code",
        "let a POST script decide which exit code is good",
    ),
    ("on_exit_remove", "write RETRY in the DAG file"),
    ("on_exit_hold", "nothing is held: let a POST script decide"),
    (
        "periodic_hold",
        "nothing is held: start the program by timeout",
    ),
    (
        "periodic_release",
        "nothing is held: write RETRY in the DAG file",
    ),
    ("periodic_remove", "start the program by timeout"),
    ("allowed_job_duration", "start the program by timeout"),
    ("allowed_execute_duration", "start the program by timeout"),
    ("deferral_time", "let a PRE script wait"),
    ("priority", "write PRIORITY in the DAG file"),
    ("prio", "write PRIORITY in the DAG file"),
    ("noop_job", "write NOOP in the JOB line"),
    (
        "concurrency_limits",
        "write CATEGORY and MAXJOBS in the DAG file",
    ),
    (
        "max_materialize",
        "write CATEGORY and MAXJOBS in the DAG file",
    ),
    (
        "request_cpus",
        "limit what runs at once, by --maxjobs or CATEGORY and MAXJOBS",
    ),
    (
        "request_memory",
        "limit what runs at once, by --maxjobs or CATEGORY and MAXJOBS",
    ),
    (
        "request_gpus",
        "limit what runs at once, by CATEGORY and MAXJOBS",
    ),
    (
        "nice_user",
        "start the program by nice, or call dagrun with --launcher nice",
    ),
    (
        "transfer_input_files",
        "the job sees the files where they are: name them by their paths",
    ),
    (
        "transfer_output_remaps",
        "let the program write to that path, or a POST script rename",
    ),
    ("env", "write environment"),
    ("initial_dir", "write initialdir"),
    ("stdin", "write input"),
    ("stdout", "write output"),
    ("stderr", "write error"),
];

static HARMLESS: [&str; 36] = [
    "accounting_group",
    "accounting_group_user",
    "batch_name",
    "copy_to_spool",
    "coresize",
    "description",
    "email_attributes",
    "getenv",
    "hold",
    "image_size",
    "job_lease_duration",
    "keep_claim_idle",
    "leave_in_queue",
    "load_profile",
    "log",
    "log_xml",
    "notification",
    "notify_user",
    "preserve_relative_paths",
    "rank",
    "remote_initialdir",
    "request_disk",
    "requirements",
    "run_as_owner",
    "should_transfer_files",
    "stack_size",
    "stream_error",
    "stream_input",
    "stream_output",
    "submit_event_notes",
    "transfer_error",
    "transfer_executable",
    "transfer_input",
    "transfer_output",
    "transfer_output_files",
    "when_to_transfer_output",
];

static GIVEN: [&str; 6] = ["Cluster", "ClusterId", "Process", "ProcId", "JOB", "RETRY"];

/// What is known of the names of submit files.
pub fn command_names() -> CommandNames<'static> {
    CommandNames {
        read: &READ,
        passed_over: &PASSED_OVER,
        harmless: &HARMLESS,
        given: &GIVEN,
    }
}
