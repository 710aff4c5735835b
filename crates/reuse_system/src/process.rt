//! Which process this is, and which user and groups it acts for, as the system reports.
ghost use Rattle.std.specs.Prelude.{◌≡◌, ◌==◌};

use crate::owner::Process;
use crate::reading::read_front;
use std::alloc::{AllocError, Global};
use std::fs::{self, File};
use std::io;
use std::rt::Files;

/// Where the system shows the number, the users and the groups of the process, on lines that begin
/// so.
const STATUS: &str = "/proc/self/status";

const NUMBER: &str = "Pid:";

const USERS: &str = "Uid:";

const GROUP: &str = "Gid:";

const GROUPS: &str = "Groups:";

/// That file is no longer than this: a process has 65,536 groups at most.
const MOST_STATUS: u64 = 1_048_576;

/// Which number of a line is the effective one: the real one comes before it.
const EFFECTIVE: usize = 1;

/// The number that no user and no group has.
const NOBODY: u32 = u32::MAX;

/// What a folder needs to know of the process.
#[derive(Clone, Copy)]
pub struct ProcessIds {
    /// Its number, if the system shows it.
    pub number: Option<u32>,
    /// The effective user.
    pub user: u32,
}

impl ProcessIds {
    /// Whether the process is root's.
    pub fn is_of_root(self) -> bool
        ensures { result ≡ (self.user == 0) }
    {
        self.user == 0
    }
}

impl Process {
    /// Which process this is, and whose.
    pub fn ids(&self) -> ProcessIds
        ensures number { result.number ≡ self.now.number }
        ensures user { result.user ≡ self.now.user }
    {
        ProcessIds {
            number: self.number,
            user: self.user,
        }
    }

    /// The process itself. If the system doesn't show its user, it is taken for one that owns
    /// nothing and may give nothing; for an allocation failure, to have fewer groups. Root needs
    /// none.
    pub fn current(rt: &impl Files<File = File>, alloc: Global) -> Process {
        match read_status(rt, alloc) {
            Ok(status) => Process::parse(alloc, lines_behind_name(&status)),
            Err(_) => Process::parse(alloc, ""),
        }
    }

    /// The process of which this text of the system's reports.
    fn parse(alloc: Global, status: &str) -> Process {
        let user = effective_of(status, USERS);
        let group = effective_of(status, GROUP);
        let mut groups = Vec::new(alloc);
        if user != 0 && user != NOBODY {
            let _ = push_groups(&mut groups, group, status);
        }
        Process {
            number: number_of(status, NUMBER, 0),
            user,
            group,
            groups,
        }
    }
}

fn read_status(rt: &impl Files<File = File>, alloc: Global) -> io::Result<Vec<u8>> {
    read_front(fs::open(rt, STATUS)?, alloc, MOST_STATUS)
}

/// The lines behind the first one. That has the name of the program, whose bytes needn't be text.
fn lines_behind_name(status: &[u8]) -> &str {
    let Some(end) = status.iter().position(|byte| *byte == b'\n') else {
        return "";
    };
    str::from_utf8(&status[end..]).unwrap_or("")
}

/// The effective number of the line of this text that begins so.
fn effective_of(status: &str, key: &str) -> u32 {
    number_of(status, key, EFFECTIVE).unwrap_or(NOBODY)
}

/// The number at this place, counted from 0, of the line of this text that begins so.
fn number_of(status: &str, key: &str, place: usize) -> Option<u32> {
    for line in status.lines() {
        if let Some(numbers) = line.strip_prefix(key) {
            return numbers.split_ascii_whitespace().nth(place)?.parse().ok();
        }
    }
    None
}

/// Adds the effective group, which is this one, and the others that this text reports.
fn push_groups(groups: &mut Vec<u32>, group: u32, status: &str) -> Result<(), AllocError> {
    groups.push(group)?;
    for line in status.lines() {
        if let Some(numbers) = line.strip_prefix(GROUPS) {
            for number in numbers.split_ascii_whitespace() {
                if let Ok(group) = number.parse() {
                    groups.push(group)?;
                }
            }
        }
    }
    Ok(())
}
