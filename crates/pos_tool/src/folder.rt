//! What the program asks of folders, and how it closes a file that it prints of.
ghost use Rattle.std.specs.Prelude.{Bool, List, Option, Result, ℕ, ⊤};
ghost use Rattle.std.specs.declared.io.Error.{Error};
ghost use Rattle.pos_file.specs.Calls.{Call};
ghost use Rattle.pos_shell.specs.Outputs.{Output, output_of};
ghost use Rattle.pos_tool.specs.Texts.{Done, names_in};

use pos_file::BlockFile;
use pos_program::{TotalsDisk, close_totals};
use pos_streams::Sink;
use std::fs::File;
use std::os::unix::fs::{MetadataExt, chown};
use std::rt::Files;
use std::{fs, io};

/// The folders of a file system, and the names in them. Each call that changes a name leads from one state to the next,
/// so that contracts of functions over a folder say in which order such calls are made, and that no others are. They
/// say what is made of what a folder answers; what it answers itself is for each such type to say. Of the system's own
/// no contract can say anything. A file that text is printed of is closed by it too, so that contracts say when.
pub trait Folder {
    /// What giving a file a second name may answer, and lead to, by the calls that the file was asked before.
    ghost links: { Self → Self → List Call → List ℕ → List ℕ → Done → Type 0 } = { λ _ _ _ _ _ _. ⊤ };

    /// What giving a file a name that isn't in use, in place of its own, may answer, and lead to, by the calls that the
    /// file was asked before.
    ghost takes: { Self → Self → List Call → List ℕ → List ℕ → Done → Type 0 } = { λ _ _ _ _ _ _. ⊤ };

    /// What giving a file another name may answer, and lead to, by the calls that the file was asked before.
    ghost renames: { Self → Self → List Call → List ℕ → List ℕ → Done → Type 0 } = { λ _ _ _ _ _ _. ⊤ };

    /// What giving a file the name of an open one may answer, and lead to, by the calls that the two were asked before.
    ghost replaces: { Self → Self → List Call → List Call → List ℕ → List ℕ → Done → Type 0 } = { λ _ _ _ _ _ _ _. ⊤ };

    /// What taking a name away may answer, and lead to.
    ghost removes: { Self → Self → List ℕ → Done → Type 0 } = { λ _ _ _ _. ⊤ };

    /// What giving a file the owner and the mode of another one may answer, and lead to.
    ghost copies_rights: { Self → Self → List ℕ → List ℕ → Done → Type 0 } = { λ _ _ _ _ _. ⊤ };

    /// What asking whether a name is free or a file's may answer.
    ghost admits: { Self → List ℕ → Result Bool Error → Type 0 } = { λ _ _ _. ⊤ };

    /// What listing a folder may answer: the names in it, or none if the path is no folder's.
    ghost lists: { Self → List ℕ → Result (Option (List (List ℕ))) Error → Type 0 } = { λ _ _ _. ⊤ };

    /// What is known of a file that was closed while an output stood like this, by the calls that the file was asked:
    /// nothing, where a type doesn't say more.
    ghost closes: { Self → List Call → Output → Type 0 } = { λ _ _ _. ⊤ };

    /// Gives an open file, which is at a path, a second name, which isn't in use.
    ///
    /// # Errors
    ///
    /// What the system says, also if the name is in use.
    fn link<F: BlockFile>(&mut self, file: &F, from: &str, to: &str) -> io::Result<()>
        ensures { links self.old self.new (F.calls file.now) from.now to.now result };

    /// Gives an open file, which is at a path, a name that isn't in use, in place of its own. It is for file systems on
    /// which a file has one name. An empty file may have the new one for a moment, and so after a crash.
    ///
    /// # Errors
    ///
    /// What the system says, also if the name is in use.
    fn take_name<F: BlockFile>(&mut self, file: &F, from: &str, to: &str) -> io::Result<()>
        ensures { takes self.old self.new (F.calls file.now) from.now to.now result };

    /// Gives an open file, which is at a path, another name, in place of a file that has it.
    ///
    /// # Errors
    ///
    /// What the system says.
    fn rename<F: BlockFile>(&mut self, file: &F, from: &str, to: &str) -> io::Result<()>
        ensures { renames self.old self.new (F.calls file.now) from.now to.now result };

    /// Gives an open file, which is at a path, the name of another open one, `held`, which loses it, but stays open.
    ///
    /// # Errors
    ///
    /// What the system says.
    fn replace<F: BlockFile>(&mut self, file: &F, held: &F, from: &str, to: &str) -> io::Result<()>
        ensures { replaces self.old self.new (F.calls file.now) (F.calls held.now) from.now to.now result };

    /// Takes a name away, and the file if it was its last one.
    ///
    /// # Errors
    ///
    /// What the system says.
    fn remove(&mut self, path: &str) -> io::Result<()>
        ensures { removes self.old self.new path.now result };

    /// Gives the file at `to` the owner, the group and the mode of the one at `from`.
    ///
    /// # Errors
    ///
    /// What the system says, as if the owner is another one than who runs the program, and that isn't root.
    fn copy_rights(&mut self, from: &str, to: &str) -> io::Result<()>
        ensures { copies_rights self.old self.new from.now to.now result };

    /// Returns whether a name is free, or that of a file: not of a link, a folder, a pipe or a device.
    ///
    /// # Errors
    ///
    /// What the system says, if it can't tell.
    fn is_free_or_file(&self, path: &str) -> io::Result<bool>
        ensures { admits self.now path.now result };

    /// Returns the names in the folder at a path, in any order; none if the path is no folder's.
    ///
    /// # Errors
    ///
    /// What the system says, also if a name isn't UTF-8.
    fn names(&self, path: &str) -> io::Result<Option<Vec<String>>>
        ensures { lists self.now path.now (names_in result) };

    /// Closes totals that were only read. Contracts name the output as it stands, and so say that what is printed of
    /// the totals is printed afterwards: code over any folder has that only from here.
    fn close_before<F: BlockFile + Drop, W: Sink>(&self, totals: TotalsDisk<F>, writer: &W)
        ensures closed { F.closed totals.below.file }
        ensures before { closes self.now (F.calls totals.below.file) (output_of W.Sink writer.now) };
}

impl<R: Files + AllocGlobal + Clone + Drop> Folder for R {
    fn link<F: BlockFile>(&mut self, _file: &F, from: &str, to: &str) -> io::Result<()> {
        fs::hard_link(self, from, to)
    }

    fn take_name<F: BlockFile>(&mut self, _file: &F, from: &str, to: &str) -> io::Result<()> {
        let _ = File::options().write(true).create_new(true).open(self, to)?;
        if let Err(cause) = fs::rename(self, from, to) {
            let _ = fs::remove_file(self, to);
            return Err(cause);
        }
        Ok(())
    }

    fn rename<F: BlockFile>(&mut self, _file: &F, from: &str, to: &str) -> io::Result<()> {
        fs::rename(self, from, to)
    }

    fn replace<F: BlockFile>(
        &mut self,
        _file: &F,
        _held: &F,
        from: &str,
        to: &str,
    ) -> io::Result<()> {
        fs::rename(self, from, to)
    }

    fn remove(&mut self, path: &str) -> io::Result<()> {
        fs::remove_file(self, path)
    }

    fn copy_rights(&mut self, from: &str, to: &str) -> io::Result<()> {
        let wanted = fs::metadata(self, from)?;
        let found = fs::metadata(self, to)?;
        if found.uid() != wanted.uid() || found.gid() != wanted.gid() {
            chown(self, to, Some(wanted.uid()), Some(wanted.gid()))?;
        }
        if found.mode() != wanted.mode() {
            fs::set_permissions(self, to, wanted.permissions())?;
        }
        Ok(())
    }

    fn is_free_or_file(&self, path: &str) -> io::Result<bool> {
        match fs::symlink_metadata(self, path) {
            Ok(found) => Ok(found.is_file()),
            Err(cause) if cause.kind() == io::ErrorKind::NotFound => Ok(true),
            Err(cause) => Err(cause),
        }
    }

    fn names(&self, path: &str) -> io::Result<Option<Vec<String>>> {
        match fs::metadata(self, path) {
            Ok(found) if found.is_dir() => {}
            _ => return Ok(None),
        }
        let mut names = Vec::new(self.alloc());
        for entry in fs::read_dir(self, path)? {
            names.push(String::from_str(self.alloc(), entry?.file_name())?)?;
        }
        Ok(Some(names))
    }

    fn close_before<F: BlockFile + Drop, W: Sink>(&self, totals: TotalsDisk<F>, _writer: &W) {
        close_totals(totals);
    }
}
