/// The commands and their options, for a person whose words were not read. It ends with a line feed.
pub fn run_help() -> &'static str {
    "incus_run: expected one of these commands:\n\
     \n\
     run [--steps N|all] [--db PATH|--journal PATH] [--fail-host LIST] [--fail-keeper LIST] [--now N] [--boot N]\n\
     \x20   [--dialect plain|client]\n\
     \x20   answers the requests on standard input; --dialect client as the command incus reads and sends them\n\
     make SEED COUNT\n\
     \x20   writes requests that make COUNT instances\n\
     drill SEED COUNT [--db PATH|--journal PATH]\n\
     \x20   answers these requests, and prints what they yield\n\
     check [--db PATH|--journal PATH]\n\
     \x20   prints what is kept\n\
     \n\
     Options stand after the command, each at most once, as --name VALUE or --name=VALUE. A number has no sign and\n\
     no zero in front: --steps 0 to 1000000, --now 0 to 253402300799, --boot and SEED 0 to 18446744073709551615,\n\
     COUNT 0 to 10000. A LIST is 1 to 64 numbers of calls from 1 on, joined by commas. PATH is not empty. Rows are\n\
     kept in the SQLite file of --db or in the journal of --journal, not both, else in memory; with such a file\n\
     --fail-keeper does not stand.\n"
}

/// The options, for a person whose words were not read. It ends with a line feed.
pub fn serve_help() -> &'static str {
    "incusd: expected these options:\n\
     \n\
     --port N|--socket PATH [--connections N] [--at-once N] [--workers N] [--idle SECONDS]\n\
     \x20   [--db PATH|--journal PATH] [--stop-at-end-of-input] [--log]\n\
     \x20   answers the requests of connections to 127.0.0.1, to the socket file PATH, or to both where both are given,\n\
     \x20   and ends after N of them where --connections is given or, with --stop-at-end-of-input, once standard input\n\
     \x20   ends; with --log it tells of each request\n\
     \n\
     They stand in any order, each at most once, as --name VALUE or --name=VALUE. A number has no sign and no zero in\n\
     front: --port 1 to 65535, --connections 1 to 1000000, --at-once 1 to 4096 (else 512), --workers 1 to 8 (else 2),\n\
     --idle 1 to 3600 (else 60). A connection beyond those that are served at once is answered 503 and closed.\n\
     PATH is not empty. Rows are kept in the SQLite file of --db or in the journal of --journal, not both, else in\n\
     memory.\n"
}
