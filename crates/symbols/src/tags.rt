// What a name is mentioned as: its purpose, whether it is declared or used, and the role that a string has in a SCAN.
// Assumes nothing.
ghost use Rattle.std.specs.Prelude.{◌≡◌};
ghost use Rattle.symbols.specs.Entries.{tag_purpose, tag_declares, string_tag};

#[derive(Clone, Copy, PartialEq, Eq)]
pub enum Purpose {
    Program,
    Label,
    Routine,
    Number,
    String,
}

#[derive(Clone, Copy, PartialEq, Eq)]
pub enum Role {
    Reference,
    Sought,
    Filler,
}

// what a name is mentioned as: its purpose, whether it is declared, and a string's role, in one
// kept: eleven variants, no struct of the three: they take a byte, for as many names as a deck can mention
#[derive(Clone, Copy, PartialEq, Eq)]
pub enum Tag {
    ProgramDeclared,
    LabelDeclared,
    RoutineDeclared,
    NumberDeclared,
    LabelUsed,
    RoutineUsed,
    NumberUsed,
    StringUsed,
    ReferenceUsed,
    SoughtUsed,
    FillerUsed,
}

impl Tag {
    // a string's, by its role if it has one
    // kept: a function: its contract says the tag in one clause, where From<Option<Role>> has a ghost member for it
    #[tactic(auto, unfolding(crate::specs::Entries::string_tag))]
    pub fn of_string(role: Option<Role>) -> Tag
        ensures { result ≡ string_tag role }
    {
        match role {
            None => Tag::StringUsed,
            Some(Role::Reference) => Tag::ReferenceUsed,
            Some(Role::Sought) => Tag::SoughtUsed,
            Some(Role::Filler) => Tag::FillerUsed,
        }
    }

    #[tactic(auto, unfolding(crate::specs::Entries::tag_purpose))]
    pub fn purpose(self) -> Purpose
        ensures { result ≡ tag_purpose self }
    {
        match self {
            Tag::ProgramDeclared => Purpose::Program,
            Tag::LabelDeclared | Tag::LabelUsed => Purpose::Label,
            Tag::RoutineDeclared | Tag::RoutineUsed => Purpose::Routine,
            Tag::NumberDeclared | Tag::NumberUsed => Purpose::Number,
            Tag::StringUsed | Tag::ReferenceUsed | Tag::SoughtUsed | Tag::FillerUsed => {
                Purpose::String
            }
        }
    }

    #[tactic(auto, unfolding(crate::specs::Entries::tag_declares))]
    pub fn is_declared(self) -> bool
        ensures { result ≡ tag_declares self }
    {
        matches!(
            self,
            Tag::ProgramDeclared | Tag::LabelDeclared | Tag::RoutineDeclared | Tag::NumberDeclared
        )
    }
}
