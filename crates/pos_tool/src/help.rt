//! The texts of `help` and `version`.

/// The version.
pub(crate) const VERSION: &str = "0.1.0";

/// What `version` prints.
pub(crate) const VERSION_LINE: &str = "kijolvar 0.1.0\n";

/// What the line `help` prints, if it is typed at a terminal.
pub(crate) const LINES_HELP: &str = "\
  new CONTROL CATEGORY           make a control: new a CashDrawer
  open CONTROL DEVICE            open it at a device of the profile: open a d1
  claim CONTROL TIMEOUT          claim the device; it never waits: claim a 0
  set CONTROL PROPERTY VALUE     set a property: set a DeviceEnabled true
  get CONTROL PROPERTY           print a property
  call CONTROL METHOD ..         call a method of the standard
  deliver CONTROL [retry|clear|continue]
                                 deliver the next event, and answer an ErrorEvent
  release CONTROL, close CONTROL
  input DEVICE ..                something happens at a device: input d1 open
  show DEVICE                    print what a device shows
  work DEVICE                    a device does its next work
  attach DEVICE SPARE, detach DEVICE
  help, quit                     print this, end

docs/reference/console.md has what each line prints.
";

/// What `help` prints.
pub(crate) const HELP: &str = "\
kijolvar: checks, prints, makes and copies totals files, and runs scripts

usage: kijolvar COMMAND ..

  check FILE [--quiet]     is FILE sound? if not: the rule that is broken, at which byte
  files FILE [--json]      print what FILE holds: layout, sequence, records, room, each file
  cat FILE NAME [--hex]    print the bytes of one file in FILE
  dump FILE                print the files of FILE as text, which can be loaded
  diff FILE OTHER          print how the files of two totals files differ
  create FILE              make a totals file without files
  migrate FILE             move FILE to layout 2, which has more and longer files
  backup FILE TO           copy FILE, also while a till uses it; TO appears whole or not at all
  restore FROM FILE [--replace]
                           put a copy back; --replace keeps the old file as FILE.old
  load TEXT FILE           make FILE of what dump printed
  salvage FILE TO          make a sound TO of what can be had of a damaged FILE
  run [SCRIPT ..] [--profile P] [--totals FILE] [--json]
                           run scripts (or standard input), and print what each line is answered;
                           at a terminal, run each line that is typed
  test PATH .. [--profile P] [--junit FILE] [--color auto|always|never]
                           run each script, and each that is in a folder, and print how its answers
                           differ from SCRIPT.stdout; --junit makes a report, too
  explain CODE [EXTENDED]  what a code means, and what to do: 106, E_ILLEGAL, 114 203
  completions SHELL        print what completes the words of bash, zsh or fish
  man                      print the man page
  version                  print the version
  help                     print this

statuses:
  0  done; of check: sound
  1  no totals, file in them, dump, code, shell or scripts; of diff and test: they differ
  2  damaged totals
  3  the command line is wrong
  4  a file can't be read or written, is there already, is in use, or is no profile
  5  the output can't be written
  6  no memory

A command that only reads writes nothing. But for backup, no till may be using FILE.
";
