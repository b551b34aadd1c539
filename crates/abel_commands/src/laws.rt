//! What holds of fuse files that are read, as the contract of a call that does nothing.

ghost use Rattle.abel_commands.specs.FewVectors.{ReadFilesHaveFewVectors};

/// A fuse file that is read has at most as many vectors as there are numbers of vectors. Does nothing.
pub fn read_files_have_few_vectors()
    ensures { ReadFilesHaveFewVectors }
{}
