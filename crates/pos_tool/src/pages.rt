//! The pages that complete the words of a shell, and the man page.

/// What `completions bash` prints.
pub(crate) const BASH: &str = r#"# bash completion for kijolvar
_kijolvar() {
  local word=${COMP_WORDS[COMP_CWORD]} before=${COMP_WORDS[COMP_CWORD - 1]} options=
  if [ "$COMP_CWORD" -eq 1 ]; then
    COMPREPLY=($(compgen -W "check files cat dump diff create migrate backup restore load salvage run test \
explain completions man version help" -- "$word"))
    return
  fi
  case ${COMP_WORDS[1]} in
    check) options=--quiet ;;
    files) options=--json ;;
    cat) options=--hex ;;
    restore) options=--replace ;;
    run) options='--profile --totals --json' ;;
    test) options='--profile --junit --color' ;;
    completions) options='bash zsh fish' ;;
    explain | man | version | help) return ;;
  esac
  [ "$before" != --color ] || options='auto always never'
  if [[ $word == -* || $before == --color || ${COMP_WORDS[1]} == completions ]]; then
    COMPREPLY=($(compgen -W "$options" -- "$word"))
    return
  fi
  compopt -o filenames
  mapfile -t COMPREPLY < <(compgen -f -- "$word")
}
complete -F _kijolvar kijolvar
"#;

/// What `completions zsh` prints.
pub(crate) const ZSH: &str = r#"#compdef kijolvar
_kijolvar() {
  local -a commands=(
    'check:is a totals file sound' 'files:what a totals file holds' 'cat:the bytes of one file'
    'dump:the files as text' 'diff:how two totals files differ' 'create:make a totals file'
    'migrate:move a file to layout 2' 'backup:copy a totals file' 'restore:put a copy back'
    'load:make a file of a dump' 'salvage:make a sound file of a damaged one' 'run:run scripts'
    'test:try scripts' 'explain:what a code means' 'completions:complete the words of a shell' 'man:the man page'
    'version:the version' 'help:the commands'
  )
  if (( CURRENT == 2 )); then
    _describe command commands
    return
  fi
  case $words[2] in
    check) _arguments '2:file:_files' '--quiet' ;;
    files) _arguments '2:file:_files' '--json' ;;
    cat) _arguments '2:file:_files' '3:name:' '--hex' ;;
    restore) _arguments '2:copy:_files' '3:file:_files' '--replace' ;;
    run) _arguments '*:script:_files' '--profile:profile:_files' '--totals:file:_files' '--json' ;;
    test) _arguments '*:script:_files' '--profile:profile:_files' '--junit:report:_files' \
      '--color:when:(auto always never)' ;;
    completions) _values shell bash zsh fish ;;
    explain|man|version|help) ;;
    *) _files ;;
  esac
}
_kijolvar "$@"
"#;

/// What `completions fish` prints.
pub(crate) const FISH: &str = r#"# fish completion for kijolvar
set -l commands check files cat dump diff create migrate backup restore load salvage run test explain completions \
  man version help
complete -c kijolvar -n "not __fish_seen_subcommand_from $commands" -f -a "$commands"
complete -c kijolvar -n "__fish_seen_subcommand_from check" -l quiet
complete -c kijolvar -n "__fish_seen_subcommand_from files run" -l json
complete -c kijolvar -n "__fish_seen_subcommand_from cat" -l hex
complete -c kijolvar -n "__fish_seen_subcommand_from restore" -l replace
complete -c kijolvar -n "__fish_seen_subcommand_from run test" -l profile -r
complete -c kijolvar -n "__fish_seen_subcommand_from run" -l totals -r
complete -c kijolvar -n "__fish_seen_subcommand_from test" -l junit -r
complete -c kijolvar -n "__fish_seen_subcommand_from test" -l color -x -a "auto always never"
complete -c kijolvar -n "__fish_seen_subcommand_from completions" -f -a "bash zsh fish"
complete -c kijolvar -n "__fish_seen_subcommand_from explain man version help" -f
"#;

/// What `man` prints.
pub(crate) const MAN: &str = r#".TH KIJOLVAR 1 "" "kijolvar 0.1.0" "Kijolvar"
.SH NAME
kijolvar \- look after the totals files of a till, and run its scripts
.SH SYNOPSIS
.B kijolvar
.I COMMAND
\&...
.SH DESCRIPTION
.B kijolvar
checks totals files, prints what they hold, makes, moves and copies them. It runs the scripts of
.BR pos_console (1)
and prints what each line is answered. A command that only reads writes nothing. A till locks its totals file while it
runs; only
.B backup
works then.
.SH TOTALS FILES
.TP
.BI check " FILE " [\-\-quiet]
Prints if the file is sound, or the rule that is broken, and at which byte.
.TP
.BI files " FILE " [\-\-json]
Prints what the file holds.
.TP
.BI cat " FILE NAME " [\-\-hex]
Prints the bytes of one file among the totals.
.TP
.BI dump " FILE"
Prints the files as text, which
.B load
takes.
.TP
.BI diff " FILE OTHER"
Prints how the files of two totals files differ.
.TP
.BI create " FILE"
Makes a totals file without files.
.TP
.BI migrate " FILE"
Moves the file to layout 2, which has more and longer files.
.TP
.BI backup " FILE TO"
Copies the file, also while a till uses it. The copy appears whole or not at all.
.TP
.BI restore " FROM FILE " [\-\-replace]
Puts a copy back. With
.B \-\-replace
it takes the place of a file, which is kept with .old at its end.
.TP
.BI load " TEXT FILE"
Makes a totals file of what
.B dump
printed.
.TP
.BI salvage " FILE TO"
Makes a sound file of what can be had of a damaged one, and prints what was lost.
.SH SCRIPTS
.TP
.BI run " [SCRIPT ..] [\-\-profile P] [\-\-totals FILE] [\-\-json]"
Runs scripts in order over one counter, and prints what each line is answered, after the number of the line. Without a
script, or for
.BR \- ,
it is standard input; at a terminal each line is run and answered as it is typed, to the line
.B quit
or Ctrl\-D, and
.B help
prints the lines. Without a profile the built\-in one serves; without a totals file totals in memory.
.TP
.BI test " PATH .. [\-\-profile P] [\-\-junit FILE] [\-\-color WHEN]"
Runs each script over a counter of its own, and prints how its answers differ from those in the file SCRIPT.stdout. Of a
folder it runs each script that has such a file there. With
.B \-\-junit
it then replaces FILE by a report in JUnit's XML. With
.B \-\-color
what it prints has colours always, never, or, by auto, at a terminal.
.SH OTHERS
.TP
.BI explain " CODE " [EXTENDED]
Prints what a code means, by its number or name, and what to do. After a result code its extended code may be given.
.TP
.BI completions " SHELL"
Prints what completes the words of bash, zsh or fish.
.TP
.B man
Prints this page.
.TP
.BR version ", " \-V ", " \-\-version
Prints the version.
.TP
.BR help ", " \-h ", " \-\-help
Prints the commands.
.SH EXIT STATUS
.TP
.B 0
Done; of check: sound.
.TP
.B 1
No totals, file in them, dump, code, shell or scripts; of diff and test: they differ.
.TP
.B 2
Damaged totals.
.TP
.B 3
The command line is wrong.
.TP
.B 4
A file can't be read or written, is there already, or is in use, or is no profile.
.TP
.B 5
The output can't be written.
.TP
.B 6
There wasn't enough memory.
.SH EXAMPLES
.nf
.RS
kijolvar check till.totals
kijolvar backup till.totals monday.totals
kijolvar salvage till.totals found.totals
kijolvar restore found.totals till.totals \-\-replace
printf 'new d CashDrawer\\nopen d d1\\n' | kijolvar run
.RE
.fi
.SH SEE ALSO
.BR pos_console (1)
.PP
The documents of Kijolvar, in share/doc/kijolvar/docs: reference/tool.md has each command, and reference/trouble.md what
to do about a message.
"#;
