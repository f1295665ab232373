/// How a run of the program ended. The number of each is the program's exit status.
#[derive(Clone, Copy, Debug, PartialEq, Eq)]
pub enum Status {
    /// The script was read to its end, and every command was accepted.
    Done = 0,
    /// The script was read to its end, and some command was refused.
    Refused = 1,
    /// The command line isn't lawful. Nothing was read or written.
    Usage = 2,
    /// Reading the script failed. The lines whose LF was read before are answered.
    ScriptFault = 3,
    /// Writing the replies failed.
    OutFault = 4,
    /// Reading or writing a file failed. The lines before the one that names it are answered.
    FileFault = 5,
    /// The script has more than 2^30 bytes. The lines whose LF is among these are answered.
    ScriptTooLong = 6,
    /// There is no memory to go on.
    Memory = 9,
}
