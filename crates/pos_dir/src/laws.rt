//! Laws over the definitions, and what is true of each directory and each group.
ghost use Rattle.std.specs.Prelude.{◌≡◌, ◌≤◌, ◌∷◌, [], List, None, length};
ghost use Rattle.pos_dir.specs.declared.file.File.{File};
ghost use Rattle.pos_dir.specs.declared.file.Limits.{Limits};
ghost use Rattle.pos_dir.specs.declared.change.Change.{Change};
ghost use Rattle.pos_dir.specs.Files.{IsDirectory, AreWider, AreWritable};
ghost use Rattle.pos_dir.specs.Changes.{flaw_of, IsGroup};
ghost use Rattle.pos_dir.specs.Spelling.{spelling, group_spelling, body_limit};

use crate::change::{Change, find_flaw};
use crate::directory::Directory;
use crate::group::Group;

/// Says that no two directories within the same limits are spelled alike.
pub fn one_spelling()
    ensures { (limits : Limits) (files others : List File) → AreWritable limits → IsDirectory limits files
        → IsDirectory limits others → spelling files ≡ spelling others → files ≡ others }
{}

/// Says that the files of a directory are those of one within wider limits.
pub fn wider_directory()
    ensures { (limits wider : Limits) (files : List File) → AreWider limits wider → IsDirectory limits files
        → IsDirectory wider files }
{}

/// Says that no two groups are spelled alike.
pub fn one_group_spelling()
    ensures { (changes others : List Change) → IsGroup changes → IsGroup others
        → group_spelling changes ≡ group_spelling others → changes ≡ others }
{}

/// Says what is true of each directory. Its limits are ones that the widths of a spelling hold, its files are within
/// them and have distinct good names, and their spelling is no longer than a body may be.
pub fn is_directory(directory: &Directory)
    ensures writable { AreWritable directory.now.limits }
    ensures directory { IsDirectory directory.now.limits directory.now.files }
    ensures length { length (spelling directory.now.files) ≤ body_limit directory.now.limits }
{
    let _ = &directory.files;
}

/// Says that the changes of a group are ones that it takes.
pub fn is_group(group: &Group<'_>)
    ensures { IsGroup group.now }
{
    let _ = &group.changes;
}

/// Says that a change without a flaw is a group by itself.
pub fn is_group_alone(change: &Change<'_>)
    requires { flaw_of change.now ≡ None }
    ensures { IsGroup (change.now ∷ []) }
{
    let _flaw = find_flaw(change);
}
