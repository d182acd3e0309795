// Heap, reference, value, storage and field types of wasm-encoder's types.rs. Their words and their bytes stand in specs/.
#![tactic(auto)]

ghost use Rattle.std.specs.Prelude.{◌≡◌};
ghost use Rattle.format.specs.Basic.{find};
ghost use Rattle.types.specs.Abstract.{abstracts, kind_of, byte_of};
ghost use Rattle.types.specs.Words.{heap_kind, heap_shared, heap_index, ref_of};
ghost use Rattle.types.specs.Bytes.{is_abs};
ghost use Rattle.types.specs.Answers.{kind_ans, ref_ans};
ghost use Rattle.types.specs.declared.HeapType.TheVariants.{Abstract};

// The abstract heap types, in the order of their kinds; each is the byte that stands for it.
#[derive(Clone, Copy, Debug, PartialEq, Eq, Hash)]
pub enum AbstractHeapType {
    Func = 0x70,
    Extern = 0x6F,
    Any = 0x6E,
    None = 0x71,
    NoExtern = 0x72,
    NoFunc = 0x73,
    Eq = 0x6D,
    Struct = 0x6B,
    Array = 0x6A,
    I31 = 0x6C,
    Exn = 0x69,
    NoExn = 0x74,
    Cont = 0x68,
    NoCont = 0x75,
}

#[derive(Clone, Copy, Debug, PartialEq, Eq, Hash)]
pub enum HeapType {
    Abstract { shared: bool, ty: AbstractHeapType },
    Concrete(u32),
    Exact(u32),
}

#[derive(Clone, Copy, Debug, PartialEq, Eq, Hash)]
pub struct RefType {
    pub nullable: bool,
    pub heap_type: HeapType,
}

#[derive(Clone, Copy, Debug, PartialEq, Eq, Hash)]
pub enum ValType {
    I32,
    I64,
    F32,
    F64,
    V128,
    Ref(RefType),
}

#[derive(Clone, Copy, Debug, PartialEq, Eq, Hash)]
pub enum StorageType {
    I8,
    I16,
    Val(ValType),
}

#[derive(Clone, Copy, Debug, PartialEq, Eq, Hash)]
pub struct FieldType {
    pub element_type: StorageType,
    pub mutable: bool,
}

impl AbstractHeapType {
    // Kinds and bytes are two numberings, so that each has its name; `TryFrom` would tell them apart by the number's type alone.
    pub fn from_byte(b: u8) -> Option<AbstractHeapType>
        ensures { result ≡ kind_ans (find byte_of abstracts b) }
    {
        match b {
            0x70 => Some(AbstractHeapType::Func),
            0x6F => Some(AbstractHeapType::Extern),
            0x6E => Some(AbstractHeapType::Any),
            0x71 => Some(AbstractHeapType::None),
            0x72 => Some(AbstractHeapType::NoExtern),
            0x73 => Some(AbstractHeapType::NoFunc),
            0x6D => Some(AbstractHeapType::Eq),
            0x6B => Some(AbstractHeapType::Struct),
            0x6A => Some(AbstractHeapType::Array),
            0x6C => Some(AbstractHeapType::I31),
            0x69 => Some(AbstractHeapType::Exn),
            0x74 => Some(AbstractHeapType::NoExn),
            0x68 => Some(AbstractHeapType::Cont),
            0x75 => Some(AbstractHeapType::NoCont),
            _ => None,
        }
    }

    pub fn kind(self) -> u32
        ensures { result ≡ kind_of self }
    {
        match self {
            AbstractHeapType::Func => 0,
            AbstractHeapType::Extern => 1,
            AbstractHeapType::Any => 2,
            AbstractHeapType::None => 3,
            AbstractHeapType::NoExtern => 4,
            AbstractHeapType::NoFunc => 5,
            AbstractHeapType::Eq => 6,
            AbstractHeapType::Struct => 7,
            AbstractHeapType::Array => 8,
            AbstractHeapType::I31 => 9,
            AbstractHeapType::Exn => 10,
            AbstractHeapType::NoExn => 11,
            AbstractHeapType::Cont => 12,
            AbstractHeapType::NoCont => 13,
        }
    }

    pub fn from_kind(k: u32) -> Option<AbstractHeapType>
        ensures { result ≡ kind_ans (find kind_of abstracts k) }
    {
        match k {
            0 => Some(AbstractHeapType::Func),
            1 => Some(AbstractHeapType::Extern),
            2 => Some(AbstractHeapType::Any),
            3 => Some(AbstractHeapType::None),
            4 => Some(AbstractHeapType::NoExtern),
            5 => Some(AbstractHeapType::NoFunc),
            6 => Some(AbstractHeapType::Eq),
            7 => Some(AbstractHeapType::Struct),
            8 => Some(AbstractHeapType::Array),
            9 => Some(AbstractHeapType::I31),
            10 => Some(AbstractHeapType::Exn),
            11 => Some(AbstractHeapType::NoExn),
            12 => Some(AbstractHeapType::Cont),
            13 => Some(AbstractHeapType::NoCont),
            _ => None,
        }
    }

    pub fn byte(self) -> u8
        ensures { result ≡ byte_of self }
    {
        self as u8
    }
}

impl HeapType {
    pub fn is_abstract(self) -> bool
        ensures { result ≡ is_abs self }
    {
        matches!(self, HeapType::Abstract { .. })
    }

    pub fn kind(self) -> u32
        ensures { result ≡ heap_kind self }
    {
        match self {
            HeapType::Abstract { ty, .. } => ty.kind(),
            HeapType::Concrete(_) => 14,
            HeapType::Exact(_) => 15,
        }
    }

    pub fn is_shared(self) -> bool
        ensures { result ≡ heap_shared self }
    {
        matches!(self, HeapType::Abstract { shared: true, .. })
    }

    pub fn index(self) -> u32
        ensures { result ≡ heap_index self }
    {
        match self {
            HeapType::Abstract { .. } => 0,
            HeapType::Concrete(x) | HeapType::Exact(x) => x,
        }
    }
}

// A constant calls no function, so that this writes what `RefType::new_abstract` makes: nullable, not shared.
macro_rules! abstract_ref {
    ($ty:ident) => {
        RefType {
            nullable: true,
            heap_type: HeapType::Abstract {
                shared: false,
                ty: AbstractHeapType::$ty,
            },
        }
    };
}

impl RefType {
    pub const ANYREF: RefType = abstract_ref!(Any);

    pub const EQREF: RefType = abstract_ref!(Eq);

    pub const FUNCREF: RefType = abstract_ref!(Func);

    pub const EXTERNREF: RefType = abstract_ref!(Extern);

    pub const I31REF: RefType = abstract_ref!(I31);

    pub const ARRAYREF: RefType = abstract_ref!(Array);

    pub const EXNREF: RefType = abstract_ref!(Exn);

    pub fn new_abstract(ty: AbstractHeapType, nullable: bool, shared: bool) -> RefType
        ensures { result ≡ record { nullable = nullable; heap_type = Abstract shared ty } }
    {
        RefType {
            nullable,
            heap_type: HeapType::Abstract { shared, ty },
        }
    }

    // The words h and x: the low four bits are the kind, bit 4 says nullable, bit 5 shared.
    pub fn from_words(h: u32, x: u32) -> Option<RefType>
        ensures { result ≡ ref_ans (ref_of (h, x)) }
    {
        if h >> 6 != 0 {
            return None;
        }
        let kind = h & 15;
        let nullable = (h >> 4) & 1 == 1;
        let shared = (h >> 5) & 1 == 1;
        if kind < 14 {
            if x != 0 {
                return None;
            }
            let ty = AbstractHeapType::from_kind(kind)?;
            return Some(RefType::new_abstract(ty, nullable, shared));
        }
        if shared {
            return None;
        }
        let heap_type = if kind == 14 {
            HeapType::Concrete(x)
        } else {
            HeapType::Exact(x)
        };
        Some(RefType {
            nullable,
            heap_type,
        })
    }
}
