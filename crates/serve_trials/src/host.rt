//! The host's objects on files of a temporary folder and on a socket of the loopback address.

ghost use Rattle.std.specs.Prelude.{◌≡◌, false};
ghost use Rattle.host_edge.specs.HostDoor.{out_of};

use crate::equal::expect_equal;
use exam_edge::{Disk, Door, Failed, Files, Link, Sink};
use host_edge::{Access, HostDisk, HostDoor, HostFiles, HostLink, HostSink, Lines};
use std::alloc::Global;
use std::io::{Error, ErrorKind, Read, Write};
use std::net::{Ipv4Addr, Net, SocketAddr, TcpListener, TcpStream};
use std::process::Abort;
use std::test::Fail;
use std::time::Duration;
use std::{env, fs, process, thread};

// The cause has this kind. It is `None` if nothing failed.
fn expect_kind<R: Abort>(rt: &R, cause: Option<Error>, kind: Option<ErrorKind>) {
    expect_equal(rt, &cause.map(|error| error.kind()), &kind);
}

// A read at this place gives this count. The buffer has these bytes after it.
fn expect_read<R: Abort>(
    rt: &R,
    disk: &mut HostDisk,
    at: u64,
    buffer: &mut [u8; 4],
    count: usize,
    bytes: &[u8; 4],
) {
    expect_equal(rt, &disk.read(at, buffer), &Ok(count));
    expect_equal(rt, buffer, bytes);
}

// What is written, cut and synced is read back.
fn expect_read_back<R: Abort>(rt: &R, disk: &mut HostDisk) {
    expect_equal(rt, &disk.write_at(0, b"abcdef"), &Ok(()));
    expect_equal(rt, &disk.write_at(4, b"xyz"), &Ok(()));
    expect_equal(rt, &disk.cut(6), &Ok(()));
    expect_equal(rt, &disk.sync(), &Ok(()));
    expect_equal(rt, &disk.len(), &Ok(6));
    let mut buffer = [0u8; 4];
    expect_read(rt, disk, 3, &mut buffer, 3, b"dxy\0");
    expect_read(rt, disk, 6, &mut buffer, 0, b"dxy\0");
    expect_kind(rt, disk.cause(), None);
}

// Each call of the disk fails, from a cause of this kind.
fn expect_failure<R: Abort>(rt: &R, disk: &mut HostDisk, kind: ErrorKind) {
    expect_equal(rt, &disk.sync(), &Err(Failed));
    expect_equal(rt, &disk.len(), &Err(Failed));
    expect_kind(rt, disk.cause(), Some(kind));
}

// A read at this place of a file gives this count. The buffer has these bytes after it.
fn expect_read_of_file<R: Abort>(
    rt: &R,
    files: &mut HostFiles,
    (path, at): (&str, u64),
    buffer: &mut [u8; 4],
    count: usize,
    bytes: &[u8; 4],
) {
    expect_equal(rt, &files.read(path, at, buffer), &Ok(count));
    expect_equal(rt, buffer, bytes);
}

fn disk_of(rt: &HostRuntime, path: &str) -> Result<HostDisk, Fail> {
    let path = String::from_str(rt.alloc(), path)?;
    Ok(HostDisk::of(rt.clone()?, path, Access::WriteOrMake))
}

// A disk over the file of this path fails, with a cause of this kind.
fn expect_refusal<R: Abort>(
    rt: &R,
    host: &HostRuntime,
    path: &str,
    kind: ErrorKind,
) -> Result<(), Fail> {
    match disk_of(host, path) {
        Ok(mut disk) => Ok(expect_failure(rt, &mut disk, kind)),
        Err(fail) => Err(fail),
    }
}

fn expect_no_read_of_folder<R: Abort>(rt: &R, files: &mut HostFiles, folder: &str) {
    let mut buffer = [0u8; 4];
    expect_equal(rt, &files.read(folder, 0, &mut buffer), &Err(Failed));
    expect_kind(rt, files.cause(), Some(ErrorKind::IsADirectory));
}

// The front of the file is read. The file is removed, and its rest is read to its end.
fn expect_read_of_removed<R: Abort>(
    rt: &R,
    host: &HostRuntime,
    files: &mut HostFiles,
    path: &str,
) -> Result<(), Fail> {
    let mut buffer = [0u8; 4];
    expect_read_of_file(rt, files, (path, 0), &mut buffer, 4, b"abcd");
    fs::remove_file(host, path)?;
    expect_read_of_file(rt, files, (path, 4), &mut buffer, 2, b"xycd");
    expect_read_of_file(rt, files, (path, 6), &mut buffer, 0, b"xycd");
    expect_kind(rt, files.cause(), None);
    Ok(())
}

fn expect_reads_in<R: Abort>(
    rt: &R,
    host: &HostRuntime,
    folder: &str,
    path: &str,
) -> Result<(), Fail> {
    let mut files = HostFiles::of(host.clone()?);
    expect_read_of_removed(rt, host, &mut files, path)?;
    expect_no_read_of_folder(rt, &mut files, folder);
    Ok(())
}

// The file is locked as long as a disk has it. The file is read and removed, and then its folder.
fn expect_removal<R: Abort>(
    rt: &R,
    host: &HostRuntime,
    folder: &str,
    path: &str,
) -> Result<(), Fail> {
    expect_refusal(rt, host, path, ErrorKind::WouldBlock)?;
    expect_reads_in(rt, host, folder, path)?;
    fs::remove_dir(host, folder)?;
    expect_refusal(rt, host, path, ErrorKind::NotFound)
}

// Each call fails once a write finds that the file was removed.
fn expect_lost<R: Abort>(rt: &R, disk: &mut HostDisk) {
    expect_equal(rt, &disk.write_at(0, b"x"), &Err(Failed));
    expect_failure(rt, disk, ErrorKind::NotFound);
}

// The disk keeps the file open until the function ends. What owns a disk has one call that may
// fail, since more are dear to prove.
fn expect_kept<R: Abort>(
    rt: &R,
    host: &HostRuntime,
    folder: &str,
    path: &str,
    disk: HostDisk,
) -> Result<(), Fail> {
    let mut disk = disk;
    expect_read_back(rt, &mut disk);
    let gone = expect_removal(rt, host, folder, path);
    expect_lost(rt, &mut disk);
    gone
}

fn expect_kept_in<R: Abort>(
    rt: &R,
    host: &HostRuntime,
    folder: &str,
    path: &str,
) -> Result<(), Fail> {
    match disk_of(host, path) {
        Ok(disk) => expect_kept(rt, host, folder, path, disk),
        Err(fail) => Err(fail),
    }
}

fn path_in(alloc: Global, place: &str, name: &str, number: u32) -> Result<String, Fail> {
    Ok(format!(in alloc; "{place}/{name}_{number}")?)
}

// The path in the temporary folder that has this name and the number of the process.
fn own_path(host: &HostRuntime, name: &str) -> Result<String, Fail> {
    let place = env::temp_dir(host)?;
    let number = process::id(host.process());
    path_in(host.alloc(), place.as_path().as_str(), name, number)
}

// A new folder.
fn new_folder(rt: &HostRuntime) -> Result<String, Fail> {
    let folder = own_path(rt, "host_edge")?;
    fs::create_dir(rt, folder.as_str())?;
    Ok(folder)
}

#[test]
fn files_keep_what_was_written(rt: HostRuntime) -> Result<(), Fail> {
    let folder = new_folder(&rt)?;
    let path = format!(in rt.alloc(); "{folder}/journal")?;
    expect_kept_in(&rt, &rt, folder.as_str(), path.as_str())
}

#[test]
fn standard_output_takes_bytes(rt: HostRuntime) {
    let mut sink = HostSink::of(rt.stdout());
    expect_equal(&rt, &sink.write(b""), &Ok(0));
    expect_equal(&rt, &sink.write(b"x"), &Ok(1));
    expect_kind(&rt, sink.cause(), None);
}

fn to_read(rt: &HostRuntime, path: &str) -> Result<HostDisk, Fail> {
    let path = String::from_str(rt.alloc(), path)?;
    Ok(HostDisk::to_read(rt.clone()?, path))
}

fn expect_not_made<R: Abort>(rt: &R, host: &HostRuntime, path: &str) -> Result<(), Fail> {
    match to_read(host, path) {
        Ok(mut disk) => Ok(expect_failure(rt, &mut disk, ErrorKind::NotFound)),
        Err(fail) => Err(fail),
    }
}

// The file is read, and not written.
fn expect_read_alone<R: Abort>(rt: &R, disk: &mut HostDisk) {
    expect_equal(rt, &disk.sync(), &Ok(()));
    expect_read(rt, disk, 1, &mut [0u8; 4], 2, b"bc\0\0");
    expect_equal(rt, &disk.write_at(0, b"x"), &Err(Failed));
    expect_equal(rt, &disk.cut(1), &Err(Failed));
    expect_equal(rt, &disk.len(), &Ok(3));
}

fn expect_only_read<R: Abort>(rt: &R, host: &HostRuntime, path: &str) -> Result<(), Fail> {
    match to_read(host, path) {
        Ok(mut disk) => Ok(expect_read_alone(rt, &mut disk)),
        Err(fail) => Err(fail),
    }
}

fn expect_neither_made_nor_changed<R: Abort>(
    rt: &R,
    host: &HostRuntime,
    path: &str,
) -> Result<(), Fail> {
    expect_not_made(rt, host, path)?;
    fs::write(host, path, b"abc")?;
    expect_only_read(rt, host, path)?;
    fs::remove_file(host, path)?;
    Ok(())
}

#[test]
fn a_file_to_read_is_neither_made_nor_changed(rt: HostRuntime) -> Result<(), Fail> {
    let path = own_path(&rt, "host_edge_read")?;
    expect_neither_made_nor_changed(&rt, &rt, path.as_str())
}

// The disk has no length, however often it is asked for.
fn expect_no_length<R: Abort>(rt: &R, disk: &mut HostDisk) {
    expect_equal(rt, &disk.len(), &Err(Failed));
    expect_equal(rt, &disk.len(), &Err(Failed));
    expect_kind(rt, disk.cause(), Some(ErrorKind::IsADirectory));
}

fn expect_no_file<R: Abort>(rt: &R, host: &HostRuntime, path: &str) -> Result<(), Fail> {
    match to_read(host, path) {
        Ok(mut disk) => Ok(expect_no_length(rt, &mut disk)),
        Err(fail) => Err(fail),
    }
}

#[test]
fn a_folder_is_no_file_to_read(rt: HostRuntime) -> Result<(), Fail> {
    let place = env::temp_dir(&rt)?;
    expect_no_file(&rt, &rt, place.as_path().as_str())
}

// What a client is answered to "ping": so many bytes. No message of HTTP begins so, which is known
// at the end of the line.
fn answer_at(rt: &HostRuntime, address: SocketAddr) -> (usize, [u8; 8]) {
    let mut got = [0u8; 8];
    let Ok(mut stream) = TcpStream::connect(rt, address) else {
        return (0, got);
    };
    let _ = stream.write(b"ping\n");
    let count = stream.read(&mut got).unwrap_or(0);
    (count, got)
}

fn expect_exchange<R: Abort>(rt: &R, link: &mut HostLink) {
    let mut buffer = [0u8; 16];
    expect_equal(rt, &link.read(&mut buffer), &Ok(5));
    expect_equal(rt, &buffer, b"ping\n\0\0\0\0\0\0\0\0\0\0\0");
    expect_equal(rt, &link.write(b""), &Ok(0));
    expect_equal(rt, &link.write(b"pong!"), &Ok(5));
}

// A door gives the client's link, and no other.
fn expect_its_link<R: Abort>(rt: &R, host: HostRuntime, listener: TcpListener) -> Result<(), Fail> {
    let mut door = HostDoor::of(host, Some(listener), Duration::from_secs(60), Some(1));
    match door.accept() {
        Ok(Some(mut link)) => {
            expect_exchange(rt, &mut link);
            door.back(link);
            assert!(rt; matches!(door.accept(), Ok(None)));
            Ok(expect_kind(rt, door.cause(), None))
        }
        _ => Err(Fail::new("no link")),
    }
}

fn expect_deaf<R: Abort>(rt: &R, host: HostRuntime) {
    let mut door = HostDoor::of(host, None, Duration::from_secs(60), Some(0));
    assert!(rt; door.accept().is_err());
    expect_kind(rt, door.cause(), Some(ErrorKind::NotConnected));
}

#[test]
fn a_door_gives_its_links(rt: HostRuntime) -> Result<(), Fail> {
    expect_deaf(&rt, rt);
    let listener = TcpListener::bind(&rt, (Ipv4Addr::LOCALHOST, 0))?;
    let address = listener.local_addr()?;
    let client = thread::spawn(&rt, move || answer_at(&rt, address))?;
    let given = expect_its_link(&rt, rt, listener);
    expect_equal(&rt, &client.join(&rt), &(5, *b"pong!\0\0\0"));
    given
}

// A client that sends "ping", reads the answer, waits so many milliseconds, and sends "ping" again,
// in two parts.
fn ping_twice(rt: &HostRuntime, address: SocketAddr, pause: u64) -> (usize, [u8; 8]) {
    let mut got = [0u8; 8];
    let Ok(mut stream) = TcpStream::connect(rt, address) else {
        return (0, got);
    };
    let _ = stream.write(b"ping\n");
    let _ = stream.read(&mut got);
    thread::sleep(rt, Duration::from_millis(pause));
    let _ = stream.write(b"pi");
    thread::sleep(rt, Duration::from_millis(100));
    let _ = stream.write(b"ng\n");
    (stream.read(&mut got).unwrap_or(0), got)
}

// A link whose bytes were used, and which waits too long for more, has ended: it gives none of the
// bytes that come then.
fn expect_no_more<R: Abort>(rt: &R, host: HostRuntime, link: &mut HostLink) {
    let mut buffer = [0u8; 16];
    expect_exchange(rt, link);
    expect_equal(rt, &link.read(&mut []), &Ok(0));
    expect_equal(rt, &link.read(&mut buffer), &Err(Failed));
    thread::sleep(&host, Duration::from_millis(600));
    expect_equal(rt, &link.read(&mut buffer), &Err(Failed));
}

fn expect_end_of_link<R: Abort>(
    rt: &R,
    host: HostRuntime,
    listener: TcpListener,
) -> Result<(), Fail> {
    let limit = Duration::from_millis(100);
    let mut door = HostDoor::of(host, Some(listener), limit, Some(1));
    match door.accept() {
        Ok(Some(mut link)) => {
            expect_no_more(rt, host, &mut link);
            Ok(door.back(link))
        }
        _ => Err(Fail::new("no link")),
    }
}

#[test]
fn a_silent_client_loses_its_connection(rt: HostRuntime) -> Result<(), Fail> {
    let listener = TcpListener::bind(&rt, (Ipv4Addr::LOCALHOST, 0))?;
    let address = listener.local_addr()?;
    let client = thread::spawn(&rt, move || ping_twice(&rt, address, 400))?;
    let ended = expect_end_of_link(&rt, rt, listener);
    expect_equal(&rt, &client.join(&rt).0, &0);
    ended
}

// A link gives a message as a whole. When its bytes were used, the link has ended, so that its
// connection is kept.
fn expect_exchange_and_rest<R: Abort>(rt: &R, door: &mut HostDoor) -> Result<(), Fail>
    requires { out_of door.old ≡ false }
    ensures { out_of door.new ≡ false }
{
    match door.accept() {
        Ok(Some(mut link)) => {
            let mut buffer = [0u8; 16];
            expect_exchange(rt, &mut link);
            expect_equal(rt, &link.read(&mut []), &Ok(0));
            expect_equal(rt, &link.read(&mut buffer), &Ok(0));
            Ok(door.back(link))
        }
        Ok(None) => Err(Fail::new("no link")),
        Err(_) => Err(Fail::new("a fault")),
    }
}

fn expect_link_twice<R: Abort>(
    rt: &R,
    host: HostRuntime,
    listener: TcpListener,
) -> Result<(), Fail> {
    let limit = Duration::from_secs(60);
    let mut doors = HostDoor::several(
        host,
        host.alloc(),
        Some(&listener),
        1,
        limit,
        None,
        None,
        &Lines::direct(host),
    )?;
    let door = doors.as_mut_slice();
    match door.first_mut() {
        Some(door) => {
            expect_exchange_and_rest(rt, door)?;
            expect_exchange_and_rest(rt, door)
        }
        None => Err(Fail::new("no door")),
    }
}

#[test]
fn a_connection_at_rest_comes_again(rt: HostRuntime) -> Result<(), Fail> {
    let listener = TcpListener::bind(&rt, (Ipv4Addr::LOCALHOST, 0))?;
    let address = listener.local_addr()?;
    let client = thread::spawn(&rt, move || ping_twice(&rt, address, 100))?;
    let given = expect_link_twice(&rt, rt, listener);
    expect_equal(&rt, &client.join(&rt), &(5, *b"pong!\0\0\0"));
    given
}
