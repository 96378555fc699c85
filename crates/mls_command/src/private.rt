//! Files that are their owner's alone.
use std::fs::OpenOptions;
use std::os::unix::fs::OpenOptionsExt;

/// Makes an empty file that its owner alone may read and write, where there is none at the path. A failure is told by
/// what opens it.
pub fn make(rt: &HostRuntime, path: &str) {
    // No file: sqlite's name for a store in memory.
    if path == ":memory:" {
        return;
    }
    let _ = OpenOptions::new()
        .read(true)
        .write(true)
        .create_new(true)
        .mode(0o600)
        .open(rt, path);
}
