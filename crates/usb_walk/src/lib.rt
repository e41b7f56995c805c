//! The descriptors of an input in order: what each is, where, how deep and whose.
//!
//! A [`Position`] is what came before a descriptor. It says what the next one is, its [`Role`] and its length, and goes on past it.
//! At each it says the [`Place`], the number of its part, set, setting and endpoint, the [`DescriptorOwner`], the depth of its
//! heading, and the class codes of its interface. Nothing is kept beside it, so a walk needs no memory, over any bytes.
//!
//! A [`WalkedDescriptor`] has all of it as numbers, a struct that is the same in Rattle, C and Python: [`next_in`] makes it the next one.
//!
//! - What comes next is `specs/Roles.antt`, and the position after it `specs/Positions.antt`.
//! - What is said of one is `specs/Places.antt`, `specs/Owners.antt` and `specs/Surroundings.antt`.
//! - A descriptor as numbers is `specs/WalkedDescriptors.antt`, its string `specs/NamedStrings.antt`.
//! - Bytes as descriptors, and the descriptors that what was read has, are `specs/Trees.antt`: a walk over an input has these, by
//!   `specs/WalkedTrees.antt` and `specs/WalkedStrings.antt`, which `usb_remarks::laws` proves.
//!
//! [`next_in`]: WalkedDescriptor::next_in
#![tactic(auto)]

pub mod laws;
mod owner;
mod place;
mod position;
mod role;
mod string_place;
mod surroundings;
mod walk;
mod walked_descriptor;
mod whole_descriptor;

pub use owner::{DescriptorOwner, InterfaceSetting};
pub use place::{Place, outside, part_number};
pub use position::Position;
pub use role::{Role, is_association, is_endpoint, is_interface, role_in, role_number, typed_role};
pub use string_place::StringPlace;
pub use walked_descriptor::WalkedDescriptor;
pub use whole_descriptor::{descriptor_length, first_descriptor};
