//! The program `shadowd`: it hands the host's files, standard output, the journal's file and, to
//! serve or to follow, the doors of a listener, or, to ship, a door that connects once, to `run`,
//! and ends with its status. Standard error has lines on the journal and the address before
//! connections are served, lines on how far a server is, the count and the digest of the records
//! before they are followed or shipped, a line on each object of the host of which a call failed,
//! and why, and a line on why a journal is refused or which command explains that there is no form.
#![tactic(auto)]

ghost use Rattle.std.specs.Prelude.{◌≡◌, ◌≤◌, All, codes, true, false, map, string_bytes, vec_len, IfOk};
ghost use Rattle.std.specs.Process.{exit_status};
ghost use Rattle.command_line.specs.Commands.{IsOfDoors, command_of};
ghost use Rattle.host_edge.specs.HostDisk.{access_of, path_of};
ghost use Rattle.host_edge.specs.HostDoor.{left_of, out_of};
ghost use Rattle.shadowd.specs.Environment.{access_for, begins_with};

mod ending;
mod records;
mod settings;
mod streaming;
mod variables;
mod watch;

use command_line::{VERSION, command_of};
use ending::{Asked, ask, socket_at};
use exam_edge::Memory;
use exam_program::{Finish, Halt, Tools, World, halt_words, place_of, run, run_alone};
use host_edge::{Access, Closing, HostDisk, HostDoor, HostFiles, HostSink, Lines, Reserve};
use libc::types::rlimit;
use records::{number_in, tell_records};
use settings::{Settings, SettingsFault};
use std::alloc::AllocError;
use std::io::ErrorKind;
use std::net::TcpListener;
use std::os::fd::AsRawFd;
use std::os::unix::net::UnixListener;
use std::process::ExitCode;
use std::sync::Wait;
use std::thread::Threads;
use std::time::Duration;
use std::{env, fs, io, thread};
use streaming::stream_journal;
use variables::HostVariables;
use watch::Watch;

/// The status of a server whose token no message can bear.
const NO_TOKEN: u8 = 2;

/// The status of a program that is out of memory.
const NO_MEMORY: u8 = 10;

/// The status of a program whose standard output failed.
const NO_OUTPUT: u8 = 8;

/// The least bytes that a stack is to have, for the deepest proof trees.
const LEAST_STACK: u64 = 8_388_608;

/// The commands that make or judge proof trees, and so call themselves as deep as these are.
const DEEP: [&str; 7] = [
    "assemble", "audit", "drill", "follow", "replay", "serve", "series",
];

/// The status of a command that found nobody who listens.
const NO_DOOR: u8 = 14;

/// The status of a command whose connection did not end in time.
const NO_LINK: u8 = 19;

/// The outside of the host.
type HostWorld = World<HostFiles, HostSink, HostDisk, HostDoor, Watch>;

/// The outside as the program leaves it.
type HostFinish = Finish<HostFiles, HostSink, HostDisk, HostDoor>;

/// The words after the program's name. Words that aren't UTF-8 ask for nothing, as no words do.
fn words_of(rt: &HostRuntime) -> io::Result<Vec<String>> {
    let alloc = rt.alloc();
    match env::args(rt) {
        Ok(args) => Ok(args.skip(1).collect(alloc)?),
        Err(fault) if fault.kind() == ErrorKind::OutOfMemory => Err(fault),
        Err(_) => Ok(Vec::new(alloc)),
    }
}

/// Whether the first word is this one.
fn begin_with(words: &[String], name: &str) -> bool
    ensures { result ≡ begins_with name.now (map (λ w. string_bytes w) words.now) }
{
    match words.first() {
        Some(word) => word.as_str() == name,
        None => false,
    }
}

/// Whether the words ask for connections.
fn ask_for_connections(words: &[String]) -> bool
    ensures { result ≡ begins_with (codes "serve") (map (λ w. string_bytes w) words.now) }
{
    begin_with(words, "serve")
}

/// Whether the words ask to follow a leader.
fn ask_to_follow(words: &[String]) -> bool {
    begin_with(words, "follow")
}

/// Whether the words ask for a command that may make a journal.
fn ask_to_make(words: &[String]) -> bool {
    ask_for_connections(words) || ask_to_follow(words) || begin_with(words, "replay")
}

/// Whether the words ask to ship to a follower.
fn ask_to_ship(words: &[String]) -> bool
    ensures { result ≡ begins_with (codes "ship") (map (λ w. string_bytes w) words.now) }
{
    begin_with(words, "ship")
}

/// Whether the words ask for an audit.
fn ask_for_audit(words: &[String]) -> bool
    ensures { result ≡ begins_with (codes "audit") (map (λ w. string_bytes w) words.now) }
{
    begin_with(words, "audit")
}

/// Whether the words ask to move a journal.
fn ask_for_move(words: &[String]) -> bool
    ensures { result ≡ begins_with (codes "migrate") (map (λ w. string_bytes w) words.now) }
{
    begin_with(words, "migrate")
}

/// Whether the words ask for the version of the program, and nothing else.
fn ask_for_version(words: &[String]) -> bool {
    words.len() == 1 && words[0].as_str() == "version"
}

/// Whether the words ask a server to end.
fn ask_for_end(words: &[String]) -> bool {
    words.len() == 1 && words[0].as_str() == "end"
}

/// Whether the words ask to stream the journal of a server: the names of a bank and a plan follow,
/// which are not read.
fn ask_for_stream(words: &[String]) -> bool {
    words.len() == 3 && words[0].as_str() == "stream"
}

/// How many bytes the stack of a thread may have, if that is less than these words need. The
/// system's limit is that of the main thread; each other thread has as much from the start of the
/// process on.
fn short_stack(words: &[String]) -> Option<u64> {
    let is_deep = DEEP.iter().any(|name| begin_with(words, *name));
    let mut limit = rlimit {
        rlim_cur: LEAST_STACK,
        rlim_max: LEAST_STACK,
    };
    let is_known = libc::getrlimit(libc::RLIMIT_STACK, &mut limit) == 0;
    if is_deep && is_known && limit.rlim_cur < LEAST_STACK {
        Some(limit.rlim_cur)
    } else {
        None
    }
}

/// Lines that a thread copies to standard error.
fn copied_lines<R: Threads>(threads: &R, rt: &HostRuntime) -> io::Result<Lines> {
    let (lines, copier) = Lines::queued(*rt)?;
    let _thread = thread::spawn(threads, move || copier.run())?;
    Ok(lines)
}

/// The lines on standard error. A server, a follower and a stream go on although nobody reads them.
fn lines_of<R: Threads>(threads: &R, rt: &HostRuntime, words: &[String]) -> Lines {
    let goes_on = ask_for_connections(words) || ask_to_follow(words) || ask_for_stream(words);
    if !goes_on {
        return Lines::direct(*rt);
    }
    match copied_lines(threads, rt) {
        Ok(lines) => lines,
        Err(cause) => {
            let lines = Lines::direct(*rt);
            lines.tell(format_args!("lines wait for their reader: {cause}"));
            lines
        }
    }
}

/// Prints the version, and gives the status to end with.
fn print_version(rt: &HostRuntime) -> ExitCode {
    match println!(rt; "shadowd {VERSION}") {
        Ok(()) => ExitCode::from(0),
        Err(_) => ExitCode::from(NO_OUTPUT),
    }
}

/// How the journal's file is opened. An audit only reads it, a move and a shipper make none, and
/// the other commands make one where that is set.
fn access_of(words: &[String], make: bool) -> Access
    ensures { result ≡ access_for (map (λ w. string_bytes w) words.now) make }
{
    if ask_for_audit(words) {
        Access::Read
    } else if ask_for_move(words) || ask_to_ship(words) {
        Access::Write
    } else if make {
        Access::WriteOrMake
    } else {
        Access::WriteIfMade
    }
}

/// The journal's file. A server that loses it ends by the flag.
fn disk_of(
    rt: &HostRuntime,
    lines: &Lines,
    words: &[String],
    settings: &Settings,
    closing: &Closing,
) -> Result<HostDisk, AllocError>
    ensures { IfOk result (λ disk. (path_of disk ≡ string_bytes settings.now.journal)
        × (access_of disk
        ≡ access_for (map (λ w. string_bytes w) words.now) settings.now.make)) }
{
    let path = settings.journal.clone()?;
    let access = access_of(words, settings.make);
    if ask_for_connections(words) {
        let closing = closing.share()?;
        let disk = HostDisk::to_serve(rt.clone()?, path, access, closing);
        Ok(disk.telling(lines.share()?))
    } else {
        Ok(HostDisk::of(rt.clone()?, path, access).telling(lines.share()?))
    }
}

/// Where a listener listens.
fn address_of(
    rt: &HostRuntime,
    settings: &Settings,
    listener: &TcpListener,
) -> Result<String, AllocError> {
    match listener.local_addr() {
        Ok(address) => format!(in rt.alloc(); "{address}"),
        Err(_) => settings.listen.clone(),
    }
}

/// How many connections the system may keep for a listener until they are accepted. It keeps no
/// more than its own limit, `net.core.somaxconn`.
const QUEUE: i32 = 65_535;

/// The listener, if the words ask for connections or to follow, and where it listens. Its queue is
/// as long as the system allows: a burst of connections would otherwise wait a second for its
/// second try. If the address can't be had, there is neither, and a line on standard error says
/// why.
fn listener_of(
    rt: &HostRuntime,
    lines: &Lines,
    words: &[String],
    settings: &Settings,
) -> Result<(Option<TcpListener>, Option<String>), AllocError> {
    if !ask_for_connections(words) && !ask_to_follow(words) {
        return Ok((None, None));
    }
    let listen = settings.listen.as_str();
    match TcpListener::bind(rt, listen) {
        Ok(listener) => {
            libc::net::listen(listener.as_raw_fd(), QUEUE);
            let address = address_of(rt, settings, &listener)?;
            Ok((Some(listener), Some(address)))
        }
        Err(cause) => {
            lines.tell(format_args!("cannot listen on {listen}: {cause}"));
            Ok((None, None))
        }
    }
}

/// The socket at which an operator asks for the end, if the words ask for connections, any number
/// of them, and a path is set.
fn operator_of(
    rt: &HostRuntime,
    words: &[String],
    settings: &Settings,
) -> io::Result<Option<UnixListener>> {
    if !ask_for_connections(words) || settings.connections.is_some() || settings.end.is_empty() {
        return Ok(None);
    }
    Ok(Some(socket_at(rt, settings.end.as_str())?))
}

/// Where a server is reached: its listener with its address, and the socket of its operator.
#[derive(Drop)]
struct Places {
    listener: Option<TcpListener>,
    address: Option<String>,
    operator: Option<UnixListener>,
}

impl Places {
    /// Nowhere: the words ask for no links.
    fn nowhere() -> Places {
        Places {
            listener: None,
            address: None,
            operator: None,
        }
    }
}

/// Where the words have the program reached. If the address or the socket can't be had, there is no
/// listener, and a line on standard error says why. Without the address the socket is left alone:
/// it may be that of the server which has the address.
fn places_of(
    rt: &HostRuntime,
    lines: &Lines,
    words: &[String],
    settings: &Settings,
) -> Result<Places, AllocError> {
    let (mut listener, mut address) = listener_of(rt, lines, words, settings)?;
    let mut operator = None;
    if listener.is_some() {
        match operator_of(rt, words, settings) {
            Ok(found) => operator = found,
            Err(cause) => {
                let end = settings.end.as_str();
                lines.tell(format_args!("cannot listen on {end}: {cause}"));
                listener = None;
                address = None;
            }
        }
    }
    Ok(Places {
        listener,
        address,
        operator,
    })
}

/// One door alone.
fn one(rt: &HostRuntime, door: HostDoor) -> Result<Vec<HostDoor>, AllocError>
    requires { out_of door ≡ false }
    ensures few { IfOk result (λ doors. vec_len doors ≤ 255) }
    ensures home { IfOk result (λ doors. All (λ d. out_of d ≡ false) doors.items) }
{
    let mut doors = Vec::new(rt.alloc());
    doors.push(door)?;
    Ok(doors)
}

/// The doors of the workers, if the words ask for connections. They share the listener, if there is
/// one. Each ends by the flag. To follow there is one door of the listener, and to ship one that
/// connects once.
fn doors_of(
    rt: &HostRuntime,
    lines: &Lines,
    words: &[String],
    settings: &Settings,
    closing: &Closing,
    listener: Option<&TcpListener>,
) -> Result<Vec<HostDoor>, AllocError>
    ensures few { IfOk result (λ doors. vec_len doors ≤ 255) }
    ensures home { IfOk result (λ doors. All (λ d. out_of d ≡ false) doors.items) }
    // A server has a door for each worker, and each gives the number of links that was set.
    ensures workers { begins_with (codes "serve") (map (λ w. string_bytes w) words.now) ≡ true
        → IfOk result (λ doors. (vec_len doors ≡ settings.now.workers)
        × All (λ d. left_of d ≡ settings.now.connections) doors.items) }
{
    if ask_for_connections(words) {
        return HostDoor::several(
            *rt,
            rt.alloc(),
            listener,
            settings.workers,
            Duration::from_secs(settings.idle),
            settings.connections,
            Some(closing),
            lines,
        );
    }
    if ask_to_follow(words) {
        let own = listener.and_then(|listener| listener.try_clone().ok());
        return one(rt, HostDoor::to_follow(*rt, own).telling(lines.share()?));
    }
    if ask_to_ship(words) {
        return one(rt, HostDoor::to_ship(*rt, settings.follower.clone()?));
    }
    Ok(Vec::new(rt.alloc()))
}

/// The outside that the program is run on. Its gate watches, and holds nobody. It takes the token
/// out of the settings.
fn world_of(
    rt: &HostRuntime,
    lines: &Lines,
    words: &[String],
    settings: &mut Settings,
    closing: &Closing,
    doors: Vec<HostDoor>,
    watch: Watch,
) -> Result<HostWorld, AllocError>
    ensures doors { IfOk result (λ world. world.doors ≡ doors) }
    ensures file { IfOk result (λ world.
        (path_of world.disk ≡ string_bytes settings.old.journal)
        × (access_of world.disk
        ≡ access_for (map (λ w. string_bytes w) words.now) settings.old.make)) }
    ensures token { IfOk result (λ world. world.token ≡ settings.old.token) }
    ensures same { settings.new.journal ≡ settings.old.journal }
    ensures make { settings.new.make ≡ settings.old.make }
{
    Ok(World {
        files: HostFiles::of(rt.clone()?),
        out: HostSink::of(rt.stdout()),
        disk: disk_of(rt, lines, words, settings, closing)?,
        doors,
        gate: watch,
        token: settings.token.take(),
    })
}

/// The settings, the outside that the program is run on, its watch, and what ends it.
fn begin(
    rt: &HostRuntime,
    lines: &Lines,
    words: &[String],
) -> Result<(Settings, HostWorld, Watch, Closing), SettingsFault>
    ensures few { IfOk result (λ begun. vec_len begun.1.doors ≤ 255) }
    ensures home { IfOk result (λ begun. All (λ d. out_of d ≡ false) begun.1.doors.items) }
    ensures file { IfOk result (λ begun.
        (path_of begun.1.disk ≡ string_bytes begun.0.journal)
        × (access_of begun.1.disk
        ≡ access_for (map (λ w. string_bytes w) words.now) begun.0.make)) }
{
    let variables = HostVariables { rt };
    let (serves, makes) = (ask_for_connections(words), ask_to_make(words));
    let mut settings = Settings::of(rt, lines, &variables, serves, makes)?;
    let Places {
        listener,
        address,
        operator,
    } = if take_links(rt, words)? {
        places_of(rt, lines, words, &settings)?
    } else {
        Places::nowhere()
    };
    let closing = Closing::new(rt.alloc(), operator)?;
    let doors = doors_of(rt, lines, words, &settings, &closing, listener.as_ref())?;
    tell_links(rt, lines, words, &settings, address.as_ref());
    let watch = Watch::new(rt, lines.share()?, settings.journal.clone()?, address)?;
    let shared = watch.share()?;
    let world = world_of(rt, lines, words, &mut settings, &closing, doors, shared)?;
    Ok((settings, world, watch, closing))
}

/// Writes where a follower listens, if the words ask to follow, and the count and the digest of the
/// records so far, if they ask to follow or to ship.
fn tell_links(
    rt: &HostRuntime,
    lines: &Lines,
    words: &[String],
    settings: &Settings,
    address: Option<&String>,
) {
    if ask_to_follow(words) || ask_to_ship(words) {
        tell_records(rt, lines, settings.journal.as_str());
    }
    if let (true, Some(address)) = (ask_to_follow(words), address) {
        let journal = settings.journal.as_str();
        lines.tell(format_args!("following on {address}, journal {journal}"));
    }
}

/// Writes a line to standard error for each object of the host of which a call failed, and one for
/// all doors. The journal's file has written its own.
fn explain(lines: &Lines, words: &[String], settings: &Settings, finish: &HostFinish) {
    let place = if ask_to_ship(words) {
        settings.follower.as_str()
    } else {
        settings.listen.as_str()
    };
    if let Some(cause) = finish.files.cause() {
        let name = finish.files.refused().unwrap_or("a file");
        lines.tell(format_args!("{name}: {cause}"));
    }
    if let Some(cause) = finish.out.cause() {
        lines.tell(format_args!("standard output: {cause}"));
    }
    if let Some(cause) = finish.doors.iter().find_map(|door| door.cause()) {
        lines.tell(format_args!("connections at {place}: {cause}"));
    }
}

/// Writes a line to standard error on why the run ended, if its halt has words. That of a journal
/// that is refused names the file and, if one record is at fault, its number, from 0. The file is
/// read once more for the number, and not changed.
fn explain_halt(rt: &HostRuntime, lines: &Lines, settings: &Settings, finish: &mut HostFinish) {
    let Some(halt) = finish.halt.take() else {
        return;
    };
    let Ok(Some(why)) = halt_words(rt.alloc(), &halt) else {
        return;
    };
    let journal = settings.journal.as_str();
    let number = number_in(rt, &mut finish.disk, place_of(&halt));
    match &halt {
        Halt::Journal(_) => match number {
            Some(number) => lines.tell_of(journal, format_args!("record {number}: {why}")),
            None => lines.tell_of(journal, why),
        },
        _ => lines.tell(why),
    }
}

/// Whether the words ask for a command that takes links: to serve, to follow or to ship.
fn take_links(rt: &HostRuntime, words: &[String]) -> Result<bool, Memory>
    ensures none { IfOk result (λ take. take ≡ false
        → IsOfDoors (command_of (map (λ w. string_bytes w) words.now)) → ⊥) }
    ensures some { IfOk result (λ take. take ≡ true
        → IsOfDoors (command_of (map (λ w. string_bytes w) words.now))) }
{
    match command_of(rt.alloc(), words)? {
        Some(command) => Ok(command.uses_doors()),
        None => Ok(false),
    }
}

/// Does a command that takes no links. It waits for nobody, and ends.
fn run_unlinked(rt: &HostRuntime, words: &[String], world: HostWorld) -> HostFinish
    requires { IsOfDoors (command_of (map (λ w. string_bytes w) words.now)) → ⊥ }
{
    let World {
        files,
        out,
        disk,
        doors,
        gate: _,
        token: _,
    } = world;
    let (status, tools, halt) = run_alone(rt.alloc(), words, Tools { files, out, disk });
    let Tools { files, out, disk } = tools;
    Finish {
        status,
        halt,
        files,
        out,
        disk,
        doors,
    }
}

/// Prints a line, and gives the status to end with.
fn print_end(rt: &HostRuntime, line: &str, status: u8) -> ExitCode {
    match println!(rt; "{line}") {
        Ok(()) => ExitCode::from(status),
        Err(_) => ExitCode::from(NO_OUTPUT),
    }
}

/// The process ends with the status of the program.
fn exit_code(finish: HostFinish) -> ExitCode
    ensures { exit_status result ≡ finish.status }
{
    let Finish {
        status,
        halt: _,
        files: _,
        out: _,
        disk: _,
        doors: _,
    } = finish;
    ExitCode::from(status)
}

/// Writes a line to standard error where the token is the fault, but never the token, and gives the
/// status to end with. Nothing was done.
fn end_before(rt: &HostRuntime, lines: &Lines, fault: SettingsFault) -> ExitCode {
    match fault {
        SettingsFault::Token => {
            lines.tell("SHADOWD_TOKEN is no token: it has 1 to 1,024 bytes, each from 33 to 126");
            ExitCode::from(NO_TOKEN)
        }
        SettingsFault::Memory => print_end(rt, "no memory", NO_MEMORY),
    }
}

/// Writes a line to standard error on a stack that is too small, and gives the status to end with.
/// Nothing was done.
fn end_of_stack(rt: &HostRuntime, lines: &Lines, stack: u64) -> ExitCode {
    let (has, wants) = (stack / 1024, LEAST_STACK / 1024);
    lines.tell(format_args!(
        "the stack may have {has} KB, and {wants} KB are needed: ulimit -s {wants}, or LimitSTACK of systemd"
    ));
    end_before(rt, lines, SettingsFault::Memory)
}

/// Asks the server of the socket that is set to end, and gives the status to end with.
fn end_server(rt: &HostRuntime, lines: &Lines, settings: &Settings) -> ExitCode {
    let path = settings.end.as_str();
    if path.is_empty() {
        lines.tell("SHADOWD_END is not set");
        return print_end(rt, "door failed", NO_DOOR);
    }
    match ask(rt, path) {
        Ok(Asked::Ended) => print_end(rt, "ended", 0),
        Ok(Asked::Waits) => print_end(rt, "link failed", NO_LINK),
        Err(cause) => {
            lines.tell(format_args!("nobody listens on {path}: {cause}"));
            print_end(rt, "door failed", NO_DOOR)
        }
    }
}

/// Removes the socket of the operator, if there is one.
fn remove_socket(rt: &HostRuntime, settings: &Settings, closing: &Closing) {
    if closing.has_operator() {
        let _ = fs::remove_file(rt, settings.end.as_str());
    }
}

/// Streams the journal, and gives the status to end with.
fn stream<R: Wait>(waiting: &R, rt: &HostRuntime, lines: &Lines, settings: Settings) -> ExitCode {
    let Settings {
        journal,
        listen,
        follower,
        workers: _,
        idle: _,
        connections: _,
        make: _,
        reserve: _,
        end: _,
        token: _,
    } = settings;
    match stream_journal(waiting, rt, lines, journal, listen, follower) {
        Ok(code) => code,
        Err(_) => print_end(rt, "no memory", NO_MEMORY),
    }
}

/// The reserve of a server's journal, if it is to have one. A thread keeps it.
fn reserve_of<R: Threads>(
    threads: &R,
    rt: &HostRuntime,
    lines: &Lines,
    settings: &Settings,
) -> io::Result<Option<Reserve>> {
    if settings.reserve == 0 {
        return Ok(None);
    }
    let journal = settings.journal.as_str();
    let (reserve, keeper) = Reserve::of(*rt, lines, journal, settings.reserve)?;
    let _thread = thread::spawn(threads, move || keeper.run())?;
    Ok(Some(reserve))
}

/// The same outside, whose journal has its reserve if the words ask for connections.
fn with_reserve<R: Threads>(
    threads: &R,
    rt: &HostRuntime,
    lines: &Lines,
    words: &[String],
    settings: &Settings,
    world: HostWorld,
) -> HostWorld
    ensures doors { result.doors ≡ world.doors }
{
    if !ask_for_connections(words) {
        return world;
    }
    let mut world = world;
    match reserve_of(threads, rt, lines, settings) {
        Ok(Some(reserve)) => world.disk = world.disk.keeping(reserve),
        Ok(None) => {}
        Err(cause) => lines.tell(format_args!("there is no reserve: {cause}")),
    }
    world
}

/// Does what the words ask for, and gives the status to end with.
fn do_words<R: Threads + Wait + Sync>(
    waiting: &R,
    rt: &HostRuntime,
    lines: &Lines,
    words: &[String],
) -> ExitCode {
    if let Some(stack) = short_stack(words) {
        return end_of_stack(rt, lines, stack);
    }
    let (settings, world, watch, closing) = match begin(rt, lines, words) {
        Ok(begun) => begun,
        Err(fault) => return end_before(rt, lines, fault),
    };
    if ask_for_version(words) {
        return print_version(rt);
    }
    if ask_for_end(words) {
        return end_server(rt, lines, &settings);
    }
    if ask_for_stream(words) {
        return stream(waiting, rt, lines, settings);
    }
    let mut finish = match take_links(rt, words) {
        Ok(true) => {
            let world = with_reserve(waiting, rt, lines, words, &settings, world);
            run(waiting, rt.alloc(), words, world)
        }
        Ok(false) => run_unlinked(rt, words, world),
        Err(Memory) => return print_end(rt, "no memory", NO_MEMORY),
    };
    watch.tell_end();
    explain(lines, words, &settings, &finish);
    explain_halt(rt, lines, &settings, &mut finish);
    remove_socket(rt, &settings, &closing);
    exit_code(finish)
}

fn main(rt: HostRuntime) -> ExitCode {
    let Ok(words) = words_of(&rt) else {
        return end_before(&rt, &Lines::direct(rt), SettingsFault::Memory);
    };
    let lines = lines_of(&rt, &rt, &words);
    let code = do_words(&rt, &rt, &lines, &words);
    lines.finish();
    code
}
