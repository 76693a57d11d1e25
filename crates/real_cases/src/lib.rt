//! The tests of the outside world of the operating system: of files and folders below the system's temporary folder,
//! and of connections from the machine to itself.
#![tactic(auto)]

#[cfg(test)]
mod connection_tests;
#[cfg(test)]
mod file_tests;
#[cfg(test)]
mod folder_tests;
#[cfg(test)]
mod fresh_folder;
#[cfg(test)]
mod split_tests;
