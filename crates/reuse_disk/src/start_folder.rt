//! The folder that the process was called in. While files are worked, the process stays where the
//! system shows its handles: from there a path through an open folder is short, and the system
//! comes to its end sooner. Then it comes back.
ghost use Rattle.std.specs.Prelude.{◌≡◌, IfOk, string_bytes};
ghost use Rattle.std.specs.Fd.{file_raw_fd};
ghost use Rattle.reuse_disk.specs.StartFolder.{path_from};

use reuse_system::place::Identity;
use reuse_system::process::ProcessIds;
use std::alloc::{AllocError, Global};
use std::env;
use std::fs::{self, File};
use std::os::fd::AsRawFd;
use std::rt::{Env, Files};

/// The folder that the process was called in, while it is where its handles are shown.
#[derive(Drop)]
pub struct StartFolder {
    handle: File,
}

impl StartFolder {
    /// Goes to where the system shows the handles of this process. If it can't be seen that the way
    /// back leads here, the process stays where it is.
    pub fn leave(
        rt: &impl Files<File = File>,
        env: &impl Env,
        alloc: Global,
        process: ProcessIds,
    ) -> Option<StartFolder> {
        let number = process.number?;
        let handle = fs::open(rt, "./").ok()?;
        let identity = Identity::of(&handle.metadata().ok()?);
        let handles = format!(in alloc; "/proc/{number}/fd/").ok()?;
        let back = format!(in alloc; "{handles}{}/", handle.as_raw_fd()).ok()?;
        let start_folder = StartFolder { handle };
        let short = start_folder.path_from(alloc, "").ok()?;
        if !identity.is_at(rt, back.as_str()) {
            return None;
        }
        env::set_current_dir(env, handles.as_str()).ok()?;
        if identity.is_at(rt, short.as_str()) {
            return Some(start_folder);
        }
        let _ = env::set_current_dir(env, back.as_str());
        None
    }

    /// A path that started in the start folder, as the system takes it now.
    pub fn path_from(&self, alloc: Global, path: &str) -> Result<String, AllocError>
        ensures { IfOk result (λ taken. string_bytes taken ≡ path_from (file_raw_fd self.now.handle) path.now) }
    {
        if path.starts_with('/') {
            return String::from_str(alloc, path);
        }
        format!(in alloc; "{}/{path}", self.handle.as_raw_fd())
    }

    /// Comes back. If there is no memory for that, the process stays: its paths start then
    /// from the root of the file system.
    pub fn come_back(self, env: &impl Env, alloc: Global) {
        if let Ok(path) = self.path_from(alloc, "") {
            let _ = env::set_current_dir(env, path.as_str());
        }
    }
}
