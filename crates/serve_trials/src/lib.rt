//! Tests on bank A above the office. Requests: on an office of one thread, on a hall with one
//! caller, and on a hall with two callers at once, also with lists of items, and with forms that
//! are ready before the answer. The work of a server: no doors, two doors in memory with one
//! connection each, also behind a gate that both connections must reach, one door with and without
//! prepared forms, and a door of the host with one client. The workers on two doors in memory. The
//! objects of `host_edge` on files of a temporary folder and on a socket. HTTP over one connection:
//! an office of one thread, over an empty disk in memory, serves the bank. The lock under threads:
//! many passes append their numbers to one list, in turns, and the tests run two threads, and
//! sixteen, and count. It promises nothing upward and holds no code of the product.
#![tactic(auto)]

#[cfg(test)]
mod alone;
#[cfg(test)]
mod answers;
#[cfg(test)]
mod assemblies;
#[cfg(test)]
mod equal;
#[cfg(test)]
mod exchanges;
#[cfg(test)]
mod hall_probes;
#[cfg(test)]
mod hall_requests;
#[cfg(test)]
mod halls;
#[cfg(test)]
mod held;
#[cfg(test)]
mod host;
#[cfg(test)]
mod hostile;
#[cfg(test)]
mod link_office;
#[cfg(test)]
mod link_rows;
#[cfg(test)]
mod lists;
#[cfg(test)]
mod meeting;
#[cfg(test)]
mod numbers;
#[cfg(test)]
mod office;
#[cfg(test)]
mod own_desk;
mod pieces;
#[cfg(test)]
mod prepared;
#[cfg(test)]
mod requests;
#[cfg(test)]
mod responses;
#[cfg(test)]
mod rows;
#[cfg(test)]
mod tally;
#[cfg(test)]
mod threads;
#[cfg(test)]
mod tokens;
#[cfg(test)]
mod trials;
#[cfg(test)]
mod work;
#[cfg(test)]
mod workers;
