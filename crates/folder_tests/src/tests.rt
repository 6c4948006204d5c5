//! The folder as a shelf and the files in a folder, over folders and files of the tests' own.

mod folder;
mod folder_files;
mod refusals;
mod same;
mod stopped;
mod tree;
