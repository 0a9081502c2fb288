//! What is known of a class and its methods.
ghost use Rattle.std.specs.Prelude.{◌≡◌, List, ℕ};
ghost use Rattle.std.specs.Option.{option_copied};

use crate::parts::{
    ChainEnd, check_end, check_perhaps_name, put_boolean, put_end, read_boolean, read_end,
};
use byte_readers::{
    Format, NameFormat, ReadError, check_list, put_list, put_option, read_list, read_option,
};
use mj_tree::{Field, Ty};
use ordered_names::Name;
use std::alloc::{AllocError, Global};
use std::marker::Model;
use tree_spelling::{FieldFormat, TypeFormat, check_ty, put_ty, read_ty};

/// A class without its bodies: whether it is the main class, its superclass, its fields with their types and the
/// names of its methods, repeated ones too. The main class has no fields and no methods.
pub struct Header {
    is_main: bool,
    superclass: Option<Name>,
    fields: Vec<Field>,
    methods: Vec<Name>,
}

impl Drop for Header {
    fn drop(self) {
        let Header {
            is_main: _,
            superclass: _,
            fields: _,
            methods: _,
        } = self;
    }
}

impl Model for Header {
    ghost use Rattle.result_bytes.specs.Payloads.{HeaderValue};
    ghost use Rattle.result_bytes.specs.Storable.{HeaderFits};

    ghost Value = { HeaderValue };

    ghost view = { λ h.
        record {
          is_main = h.is_main;
          superclass = h.superclass;
          fields = h.fields.items;
          methods = h.methods.items;
        } };

    ghost invariant = { λ h.
        HeaderFits
        (record {
          is_main = h.is_main;
          superclass = h.superclass;
          fields = h.fields.items;
          methods = h.methods.items;
        }) };
}

impl Header {
    ghost use Rattle.result_bytes.specs.Storable.{HeaderFits};

    /// A header of these parts.
    #[tactic(auto, using(byte_readers::specs::Laws::all_storable))]
    pub fn new(
        is_main: bool,
        superclass: Option<Name>,
        fields: Vec<Field>,
        methods: Vec<Name>,
    ) -> Self
        ensures { result
            ≡ record {
              is_main = is_main;
              superclass = superclass;
              fields = fields.items;
              methods = methods.items;
            } }
    {
        // What the spelling demands of the parts they keep in their types.
        check_perhaps_name(&superclass);
        check_list::<FieldFormat>(&fields);
        check_list::<NameFormat>(&methods);
        Header {
            is_main,
            superclass,
            fields,
            methods,
        }
    }

    /// Whether it is the main class.
    pub fn is_main(&self) -> bool
        ensures value { result ≡ self.now.is_main }
        ensures fits { HeaderFits self.now }
    {
        self.is_main
    }

    /// The class that it extends.
    pub fn superclass(&self) -> Option<&Name>
        ensures { option_copied result ≡ self.now.superclass }
    {
        self.superclass.as_ref()
    }

    /// Its fields.
    pub fn fields(&self) -> &[Field]
        ensures { result.now ≡ self.now.fields }
    {
        self.fields.as_slice()
    }

    /// The names of its methods.
    pub fn methods(&self) -> &[Name]
        ensures { result.now ≡ self.now.methods }
    {
        self.methods.as_slice()
    }
}

/// The types of a method's formals, and its return type.
pub struct Signature {
    formals: Vec<Ty>,
    returns: Ty,
}

impl Drop for Signature {
    fn drop(self) {
        let Signature {
            formals: _,
            returns: _,
        } = self;
    }
}

impl Model for Signature {
    ghost use Rattle.result_bytes.specs.Payloads.{SignatureValue};
    ghost use Rattle.result_bytes.specs.Storable.{SignatureFits};

    ghost Value = { SignatureValue };

    ghost view = { λ s. record { formals = s.formals.items; returns = s.returns } };

    ghost invariant = { λ s.
        SignatureFits (record { formals = s.formals.items; returns = s.returns }) };
}

impl Signature {
    ghost use Rattle.result_bytes.specs.Storable.{SignatureFits};

    /// A signature of these types.
    #[tactic(auto, using(byte_readers::specs::Laws::all_storable))]
    pub fn new(formals: Vec<Ty>, returns: Ty) -> Self
        ensures { result ≡ record { formals = formals.items; returns = returns } }
    {
        // What the spelling demands of the parts they keep in their types.
        check_list::<TypeFormat>(&formals);
        check_ty(&returns);
        Signature { formals, returns }
    }

    /// The types of the formals.
    pub fn formals(&self) -> &[Ty]
        ensures value { result.now ≡ self.now.formals }
        ensures fits { SignatureFits self.now }
    {
        self.formals.as_slice()
    }

    /// The return type.
    pub fn returns(&self) -> &Ty
        ensures { result.now ≡ self.now.returns }
    {
        &self.returns
    }
}

/// The chain of classes that begins with a class, and its end.
pub struct Supers {
    classes: Vec<Name>,
    end: ChainEnd,
}

impl Drop for Supers {
    fn drop(self) {
        let Supers { classes: _, end: _ } = self;
    }
}

impl Model for Supers {
    ghost use Rattle.result_bytes.specs.Payloads.{ChainValue};
    ghost use Rattle.result_bytes.specs.Storable.{ChainFits};

    ghost Value = { ChainValue };

    ghost view = { λ s. record { classes = s.classes.items; end = s.end } };

    ghost invariant = { λ s. ChainFits (record { classes = s.classes.items; end = s.end }) };
}

impl Supers {
    ghost use Rattle.result_bytes.specs.Storable.{ChainFits};

    /// A chain of these classes with this end.
    #[tactic(auto, using(byte_readers::specs::Laws::all_storable))]
    pub fn new(classes: Vec<Name>, end: ChainEnd) -> Self
        ensures { result ≡ record { classes = classes.items; end = end } }
    {
        // What the spelling demands of the parts they keep in their types.
        check_list::<NameFormat>(&classes);
        check_end(&end);
        Supers { classes, end }
    }

    /// The classes.
    pub fn classes(&self) -> &[Name]
        ensures value { result.now ≡ self.now.classes }
        ensures fits { ChainFits self.now }
    {
        self.classes.as_slice()
    }

    /// How the chain ends.
    pub fn end(&self) -> &ChainEnd
        ensures { result.now ≡ self.now.end }
    {
        &self.end
    }
}

/// Headers.
pub struct HeaderFormat;

impl Format for HeaderFormat {
    ghost use Rattle.result_bytes.specs.Canon.{header};
    ghost use Rattle.result_bytes.specs.Storable.{HeaderFits};
    ghost use Rattle.result_bytes.specs.Reading.{header_at};
    ghost use Rattle.result_bytes.specs.ItemLaws.{lawful_header};
    ghost use Rattle.result_bytes.specs.Payloads.{HeaderValue};
    ghost use Rattle.byte_readers.specs.Views.{plain};

    type Item = Header;

    ghost Seen = { HeaderValue };

    ghost view = { plain };

    ghost is_storable = { λ _. Unit {0} };

    ghost has_spelling = { HeaderFits };

    ghost spelling = { header };

    ghost reading = { header_at };

    ghost lawful = { lawful_header };

    fn check(item: &Header) {
        let _is_main = item.is_main();
    }

    fn write(out: &mut Vec<u8>, item: &Header) -> Result<(), AllocError> {
        put_boolean(out, item.is_main)?;
        put_option::<NameFormat>(out, &item.superclass)?;
        put_list::<FieldFormat>(out, &item.fields)?;
        put_list::<NameFormat>(out, &item.methods)
    }

    #[tactic(auto, unfolding(crate::specs::Reading::header_at))]
    fn read(alloc: Global, bytes: &[u8]) -> Result<(Header, &[u8]), ReadError> {
        let (is_main, rest) = read_boolean(bytes)?;
        let (superclass, rest) = read_option::<NameFormat>(alloc, rest)?;
        let (fields, rest) = read_list::<FieldFormat>(alloc, rest)?;
        let (methods, rest) = read_list::<NameFormat>(alloc, rest)?;
        Ok((Header::new(is_main, superclass, fields, methods), rest))
    }
}

/// Signatures.
pub struct SignatureFormat;

impl Format for SignatureFormat {
    ghost use Rattle.result_bytes.specs.Canon.{signature};
    ghost use Rattle.result_bytes.specs.Storable.{SignatureFits};
    ghost use Rattle.result_bytes.specs.Reading.{signature_at};
    ghost use Rattle.result_bytes.specs.ItemLaws.{lawful_signature};
    ghost use Rattle.result_bytes.specs.Payloads.{SignatureValue};
    ghost use Rattle.byte_readers.specs.Views.{plain};

    type Item = Signature;

    ghost Seen = { SignatureValue };

    ghost view = { plain };

    ghost is_storable = { λ _. Unit {0} };

    ghost has_spelling = { SignatureFits };

    ghost spelling = { signature };

    ghost reading = { signature_at };

    ghost lawful = { lawful_signature };

    fn check(item: &Signature) {
        let _formals = item.formals();
    }

    fn write(out: &mut Vec<u8>, item: &Signature) -> Result<(), AllocError> {
        put_list::<TypeFormat>(out, item.formals())?;
        put_ty(out, item.returns())
    }

    #[tactic(auto, unfolding(crate::specs::Reading::signature_at))]
    fn read(alloc: Global, bytes: &[u8]) -> Result<(Signature, &[u8]), ReadError> {
        let (formals, rest) = read_list::<TypeFormat>(alloc, bytes)?;
        let (returns, rest) = read_ty(alloc, rest)?;
        Ok((Signature::new(formals, returns), rest))
    }
}

/// Chains.
pub struct SupersFormat;

impl Format for SupersFormat {
    ghost use Rattle.result_bytes.specs.Canon.{chain};
    ghost use Rattle.result_bytes.specs.Storable.{ChainFits};
    ghost use Rattle.result_bytes.specs.Reading.{chain_at};
    ghost use Rattle.result_bytes.specs.ItemLaws.{lawful_chain};
    ghost use Rattle.result_bytes.specs.Payloads.{ChainValue};
    ghost use Rattle.byte_readers.specs.Views.{plain};

    type Item = Supers;

    ghost Seen = { ChainValue };

    ghost view = { plain };

    ghost is_storable = { λ _. Unit {0} };

    ghost has_spelling = { ChainFits };

    ghost spelling = { chain };

    ghost reading = { chain_at };

    ghost lawful = { lawful_chain };

    fn check(item: &Supers) {
        let _classes = item.classes();
    }

    fn write(out: &mut Vec<u8>, item: &Supers) -> Result<(), AllocError> {
        put_list::<NameFormat>(out, item.classes())?;
        put_end(out, item.end())
    }

    #[tactic(auto, unfolding(crate::specs::Reading::chain_at))]
    fn read(alloc: Global, bytes: &[u8]) -> Result<(Supers, &[u8]), ReadError> {
        let (classes, rest) = read_list::<NameFormat>(alloc, bytes)?;
        let (end, rest) = read_end(alloc, rest)?;
        Ok((Supers::new(classes, end), rest))
    }
}
